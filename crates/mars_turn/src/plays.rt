//! What each kind of step tells, and how views are cut and joined. These types are for the proofs alone.
ghost use Rattle.mars_turn.specs.Steps.{took, gave, looked, after_split, split_off, joined_view, spent_view};

use crate::listed::Listed;
use crate::pass_view::PassView;
use atomic_table::{Join, Play, Split};
use std::marker::PhantomData;

/// Take the turn.
pub(crate) struct Take<V> {
    value: PhantomData<V>,
}

impl<V: Listed> Play<Option<V>, PassView<V::Item>> for Take<V> {
    ghost then = { took V.list V.fixed V.by };
}

/// Give back.
pub(crate) struct Give<V> {
    value: PhantomData<V>,
}

impl<V: Listed> Play<Option<V>, PassView<V::Item>> for Give<V> {
    ghost then = { gave V.list V.fixed V.by };
}

/// Load.
pub(crate) struct Look<V> {
    value: PhantomData<V>,
}

impl<V: Listed> Play<Option<V>, PassView<V::Item>> for Look<V> {
    ghost then = { looked V.by };
}

/// Split.
pub(crate) struct Cut;

impl<T> Split<PassView<T>> for Cut {
    ghost left = { after_split };

    ghost right = { split_off };
}

/// Join.
pub(crate) struct Glue;

impl<T> Join<PassView<T>> for Glue {
    ghost both = { joined_view };

    ghost spent = { spent_view };
}
