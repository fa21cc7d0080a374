//! Numbers of goal lists.
use std::marker::Model;

/// A goal list of an arena: its number, counted from 0 in the order of adding. Number 0 is the empty list.
#[derive(Clone, Copy, Debug, PartialEq, Eq)]
pub struct GoalList(pub(crate) usize);

impl Model for GoalList {
    ghost use Rattle.std.specs.Prelude.{ℕ};

    ghost Value = { ℕ };

    ghost view = { λ list. list.0 };

    ghost inverse = { λ n. record { 0 = n } };
}
