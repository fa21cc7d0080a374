//! The passes.
ghost use Rattle.std.specs.Prelude.{◌≡◌, ◌+◌, ◌^◌, ◌≤◌, true, [], ◌∷◌, length, None, is_some, IsTrue, ◌↔◌, Some, if◌then◌else◌};
ghost use Rattle.mars_turn.specs.Views.{KnowsItems, CountsPasses};

use crate::listed::Listed;
use crate::pass_view::PassView;
use atomic_table::Seat;

/// A thread's right to take the turn, with what it knows. It can be used with the turn that made it, and with no other.
#[derive(Drop)]
pub struct Pass<V: Listed> {
    pub(crate) seat: Seat<Option<V>, PassView<V::Item>>,
    pub(crate) number: u32,
    /// How many passes ended in it.
    pub(crate) joined: u64,
    /// How many passes there are, where it knows that.
    pub(crate) made: Option<u64>,
    pub(crate) inside: bool,
    ghost live: { seat.me.0.live ≡ true },
    ghost numbered: { seat.me.0.number ≡ number },
    ghost ends: { length seat.me.0.ended ≡ joined },
    ghost few: { joined + 1 ≤ 2 ^ 32 },
    ghost maker: { seat.me.0.made ≡ made },
    ghost settled: { seat.me.0.shorter ≡ [] },
    ghost placed: { is_some seat.me.0.entered ≡ inside },
    ghost carries: { seat.me.1 ≡ (if inside then (0, None) ∷ [] else []) },
    ghost knows: { KnowsItems V.by seat.me.0 },
    ghost counts: { CountsPasses seat.me.0 },
}

impl<V: Listed> Pass<V> {
    ghost use Rattle.mars_turn.specs.Passes.{pass_view};
    ghost use Rattle.mars_turn.specs.Views.{IsComplete};

    /// Its number: 0 for the opening pass, and k for the k-th that was split off.
    pub fn number(&self) -> u32
        ensures { result ≡ (pass_view self.now).number }
    {
        self.number
    }

    /// Whether it is outside and every other pass of its turn, the opening one included, has been joined into it.
    pub fn complete(&self) -> bool
        ensures { IsTrue result ↔ IsComplete (pass_view self.now) }
    {
        !self.inside && self.made == Some(self.joined + 1)
    }
}
