//! Numbers in the order in which they were met: a queue that has each number once, and finds it at once.
ghost use Rattle.std.specs.Prelude.{◌≡◌, ◌<◌, [], length, slice_get, Some, OnOk, OnErr, Contains};
ghost use Rattle.mars_reach.specs.Order.{with_number, met_after, place_in, AreDistinct};

use indexmap::IndexSet;
use mars_base::NoMemory;
use std::alloc::Global;
use std::marker::Model;

/// Numbers, each once, in the order in which they were met.
#[derive(Drop)]
pub struct Order {
    met: IndexSet<usize>,
}

impl Model for Order {
    ghost use Rattle.std.specs.Prelude.{List, ℕ};

    ghost Value = { List ℕ };

    ghost view = { λ o. o.met.keys };
}

impl Order {
    /// No number.
    pub fn new(alloc: Global) -> Order
        ensures { result ≡ [] }
    {
        Order {
            met: IndexSet::new(alloc),
        }
    }

    /// Puts a number last, unless it was met before.
    pub fn meet(&mut self, number: usize) -> Result<(), NoMemory>
        ensures ok { OnOk result (self.new ≡ with_number self.old number) }
        ensures err { OnErr result (self.new ≡ self.old) }
    {
        self.met.insert(number)?;
        Ok(())
    }

    /// Meets each number of a list. Where memory runs out, some of them may have been met.
    pub(crate) fn meet_all(&mut self, numbers: &[usize]) -> Result<(), NoMemory>
        ensures { OnOk result (self.new ≡ met_after self.old numbers.now) }
    {
        for number in numbers {
            self.meet(*number)?;
        }
        Ok(())
    }

    /// How many numbers were met.
    pub fn len(&self) -> usize
        ensures len { result ≡ length self.now }
        ensures distinct { AreDistinct self.now }
    {
        self.met.len()
    }

    /// The number that was met at a place, counted from 0.
    pub fn get(&self, place: usize) -> usize
        requires { place < length self.now }
        ensures { slice_get self.now place ≡ Some result }
    {
        self.met[place]
    }

    /// The place of a number that was met.
    pub fn place(&self, number: usize) -> usize
        requires { Contains self.now number }
        ensures { result ≡ place_in self.now number }
    {
        match self.met.get_index_of(&number) {
            Some(place) => place,
            None => unreachable!(),
        }
    }
}
