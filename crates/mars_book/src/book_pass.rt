//! The passes of a book.
use crate::shared_table::SharedTable;
use mars_turn::Pass;
use std::marker::Model;

/// A thread's right to call the table of a book, with what it knows. It is outside, what it has seen is legal, and its own
/// entries there are those that it made.
#[derive(Drop)]
pub struct BookPass {
    pub(crate) pass: Pass<SharedTable>,
}

impl Model for BookPass {
    ghost use Rattle.mars_book.specs.PassSeen.{PassSeen};

    ghost Value = { PassSeen };

    ghost use Rattle.mars_book.specs.PassInside.{seen_pass, IsKnowing};

    ghost view = { seen_pass };

    ghost invariant = { IsKnowing };
}

impl BookPass {
    ghost use Rattle.std.specs.Prelude.{◌≡◌, IsTrue, ◌↔◌};
    ghost use Rattle.mars_turn.specs.Views.{IsComplete};
    ghost use Rattle.mars_book.specs.PassSeen.{KnowsHistory};

    /// Its number: 0 for the opening pass, and k for the k-th that was split off. Takes no memory.
    pub fn number(&self) -> u32
        ensures number { result ≡ self.now.view.number }
        ensures knows { KnowsHistory self.now.view }
    {
        self.pass.number()
    }

    /// Whether every other pass of its book, the opening one included, has met it. Takes no memory.
    pub fn complete(&self) -> bool
        ensures { IsTrue result ↔ IsComplete self.now.view }
    {
        self.pass.complete()
    }
}
