//! The pairs of nodes that a comparison has met: a queue that holds each pair once and finds it at once.
ghost use Rattle.std.specs.Prelude.{◌≡◌, ◌<◌, ◌≤◌, ◌*◌, [], length, slice_get, Some, OnOk, Contains};
ghost use Rattle.mars_tree.specs.Pairs.{PairsGrow};

use indexmap::IndexSet;
use mars_base::NoMemory;
use std::alloc::Global;
use std::marker::Model;

/// Pairs of numbers below a height and a width, each once, in the order in which they were met.
#[derive(Drop)]
pub struct Pairs {
    height: usize,
    width: usize,
    met: IndexSet<(usize, usize)>,
}

impl Model for Pairs {
    ghost use Rattle.mars_tree.specs.Pairs.{MetPairs};

    ghost Value = { MetPairs };

    ghost use Rattle.mars_tree.specs.PairsInside.{met_of, AreBelow};

    ghost view = { met_of };

    ghost invariant = { AreBelow };
}

impl Pairs {
    /// No pair of numbers below this height and this width.
    pub fn new(alloc: Global, height: usize, width: usize) -> Pairs
        ensures { result ≡ record { height = height; width = width; pairs = [] } }
    {
        Pairs {
            height,
            width,
            met: IndexSet::new(alloc),
        }
    }

    /// Adds a pair, unless it was met before.
    pub fn meet(&mut self, i: usize, j: usize) -> Result<(), NoMemory>
        requires i_in { i < self.old.height }
        requires j_in { j < self.old.width }
        ensures grows { OnOk result (PairsGrow (λ pair. pair ≡ (i, j)) self.old self.new) }
        ensures there { OnOk result (Contains self.new.pairs (i, j)) }
    {
        self.met.insert((i, j))?;
        Ok(())
    }

    /// How many pairs were met.
    pub fn len(&self) -> usize
        ensures len { result ≡ length self.now.pairs }
        ensures bound { result ≤ self.now.height * self.now.width }
    {
        self.met.len()
    }

    /// The pair that was met at a place.
    pub fn get(&self, place: usize) -> (usize, usize)
        requires { place < length self.now.pairs }
        ensures pair { slice_get self.now.pairs place ≡ Some result }
        ensures i_in { result.0 < self.now.height }
        ensures j_in { result.1 < self.now.width }
    {
        self.met[place]
    }
}
