//! The nodes of a rule's places, which are emptied all at once: each place remembers the round in which it was filled, and
//! has a node where that is the present round.
ghost use Rattle.std.specs.Prelude.{◌≡◌, ◌<◌, ◌≤◌, ◌-◌, ◌++◌, ◌∷◌, [], ℕ, None, Some, length, replicate, slice_get, slice_index_or, slice_set, All, OnOk, OnErr};
ghost use Rattle.mars_store.specs.System.{node_at};
ghost use Rattle.mars_store.specs.declared.registers.Slot.{Slot};

use crate::node_id::NodeId;
use mars_base::NoMemory;
use std::alloc::Global;
use std::marker::Model;

/// The node that a place got last, and in which round.
#[derive(Clone, Copy)]
struct Slot {
    round: usize,
    node: NodeId,
}

/// Some places, each with a node or without one.
#[derive(Drop)]
pub struct Registers {
    slots: Vec<Slot>,
    len: usize,
    round: usize,
}

impl Model for Registers {
    ghost use Rattle.std.specs.Prelude.{ℕ, List, Option};

    ghost Value = { List (Option ℕ) };

    ghost use Rattle.mars_store.specs.RegistersInside.{registers_in, AreSlots};

    ghost view = { λ r. registers_in r.round r.len r.slots.items };

    ghost invariant = { λ r. AreSlots r.round r.len r.slots.items };
}

impl Registers {
    /// No places. Takes no memory.
    pub fn new(alloc: Global) -> Registers
        ensures { result ≡ [] }
    {
        Registers {
            slots: Vec::new(alloc),
            len: 0,
            round: 0,
        }
    }

    /// How many places there are.
    pub fn len(&self) -> usize
        ensures { result ≡ length self.now }
    {
        self.len
    }

    /// Makes it so many places without a node. Constant where it had as many before, at any time.
    #[inline]
    pub fn start(&mut self, count: usize) -> Result<(), NoMemory>
        ensures { OnOk result (self.new ≡ replicate count None) }
    {
        self.len = 0;
        self.round = next_round(self.round, &mut self.slots);
        if self.slots.len() < count {
            grow(&mut self.slots, count)?;
        }
        self.len = count;
        Ok(())
    }

    /// The node of a place, where it has one.
    #[inline(always)]
    pub fn get(&self, place: usize) -> Option<NodeId>
        requires { place < length self.now }
        ensures { result ≡ slice_index_or self.now place result }
    {
        let slot = self.slots[place];
        if slot.round == self.round {
            Some(slot.node)
        } else {
            None
        }
    }

    /// The node of a place that has one.
    #[inline(always)]
    pub fn node(&self, place: usize) -> NodeId
        requires { (node : ℕ) × (slice_get self.now place ≡ Some (Some node)) }
        ensures { result ≡ node_at self.now place }
    {
        self.slots[place].node
    }

    /// Gives a place a node.
    #[inline(always)]
    pub fn set(&mut self, place: usize, node: NodeId)
        requires { place < length self.old }
        ensures { self.new ≡ slice_set self.old place (Some node) }
    {
        self.slots[place] = Slot {
            round: self.round,
            node,
        };
    }

    /// Adds a place with a node.
    #[inline]
    pub fn push(&mut self, node: NodeId) -> Result<(), NoMemory>
        ensures ok { OnOk result (self.new ≡ self.old ++ Some node ∷ []) }
        ensures err { OnErr result (self.new ≡ self.old) }
    {
        let slot = Slot {
            round: self.round,
            node,
        };
        if self.len < self.slots.len() {
            self.slots[self.len] = slot;
        } else {
            self.slots.push(slot)?;
        }
        self.len += 1;
        Ok(())
    }
}

/// A round in which no slot was filled. Where no number is left, the slots go.
#[inline]
fn next_round(round: usize, slots: &mut Vec<Slot>) -> usize
    requires { All (λ (slot : Slot). slot.round ≤ round) slots.old.items }
    ensures past { All (λ (slot : Slot). slot.round < result) slots.new.items }
    ensures some { 0 < result }
{
    if round == usize::MAX {
        slots.clear();
        return 1;
    }
    round + 1
}

/// Makes it so many slots, where there are fewer; those that come were filled in no round.
#[inline(never)]
fn grow(slots: &mut Vec<Slot>, count: usize) -> Result<(), NoMemory>
    requires { length slots.old.items ≤ count }
    ensures ok { OnOk result (slots.new.items ≡ slots.old.items ++ replicate (count - length slots.old.items) (record { round = 0; node = 0 })) }
    ensures err { OnErr result (slots.new.items ≡ slots.old.items) }
{
    slots.resize(
        count,
        Slot {
            round: 0,
            node: NodeId(0),
        },
    )?;
    Ok(())
}
