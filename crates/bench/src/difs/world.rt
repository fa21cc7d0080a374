//! A store with a keeper of inequations that serves it, and beside it all that were added.
ghost use Rattle.std.specs.Prelude.{◌≡◌, ◌<◌, IsTrue, length};
ghost use Rattle.mars_store.specs.System.{Grows, IsMark, undone};
ghost use Rattle.mars_dif.specs.Kept.{Serves, IsAfter, IsKeeperMark, keeper_undone};

use crate::difs::keeping::{differ, equate, keeper_of, plain, recheck};
use mars_base::NoMemory;
use mars_dif::{Dif, DifStore};
use mars_store::{NodeId, Store};
use std::alloc::Global;

/// A store, its keeper, and the inequations that were added and haven't been undone.
#[derive(Drop)]
pub(crate) struct World {
    pub(crate) alloc: Global,
    pub(crate) store: Store,
    pub(crate) difs: DifStore,
    pub(crate) added: Vec<(NodeId, NodeId)>,
}

/// What a plain keeper would have: those that wait, and whether none has failed.
#[derive(Drop)]
struct Plain {
    waiting: Vec<(NodeId, NodeId)>,
    fine: bool,
}

/// Whether the keeper has what a plain one would have, whether inequations wait, and whether none has failed.
#[derive(Clone, Copy)]
pub(crate) struct Compared {
    pub(crate) same: bool,
    pub(crate) waits: bool,
    pub(crate) fine: bool,
}

/// Whether a store has both nodes.
fn are_inside(store: &Store, a: NodeId, b: NodeId) -> bool
    ensures a_in { IsTrue result → a < length store.now.nodes }
    ensures b_in { IsTrue result → b < length store.now.nodes }
{
    let nodes = store.mark().nodes;
    a.number() < nodes && b.number() < nodes
}

impl World {
    /// A store with a keeper without inequations.
    pub(crate) fn new(alloc: Global, store: Store) -> World
        ensures { Serves result.difs result.store }
    {
        let difs = keeper_of(alloc, &store);
        World {
            alloc,
            store,
            difs,
            added: Vec::new(alloc),
        }
    }

    /// Makes two nodes equal, where they are there and can be.
    pub(crate) fn equate(&mut self, a: NodeId, b: NodeId) -> Result<(), NoMemory>
        requires { Serves self.old.difs self.old.store }
        ensures serves { Serves self.new.difs self.new.store }
        ensures grows { Grows self.old.store self.new.store }
        ensures after { IsAfter self.old.difs self.new.difs }
    {
        if are_inside(&self.store, a, b) {
            equate(self.alloc, &self.difs, &mut self.store, a, b)?;
        }
        Ok(())
    }

    /// Adds an inequation of two nodes, where they are there.
    pub(crate) fn differ(&mut self, a: NodeId, b: NodeId) -> Result<(), NoMemory>
        requires { Serves self.old.difs self.old.store }
        ensures serves { Serves self.new.difs self.new.store }
        ensures grows { Grows self.old.store self.new.store }
        ensures after { IsAfter self.old.difs self.new.difs }
    {
        if are_inside(&self.store, a, b) {
            let told = differ(&mut self.difs, &mut self.store, a, b)?;
            if told != Dif::Fails {
                self.added.push((a, b))?;
            }
        }
        Ok(())
    }

    /// Rechecks all inequations, and compares the keeper with a plain one.
    pub(crate) fn compared(&mut self) -> Result<Compared, NoMemory>
        requires { Serves self.old.difs self.old.store }
        ensures serves { Serves self.new.difs self.new.store }
        ensures grows { Grows self.old.store self.new.store }
        ensures after { IsAfter self.old.difs self.new.difs }
    {
        let fine = recheck(&mut self.difs, &mut self.store)?;
        let plain = try_all(self.alloc, &mut self.store, &self.added)?;
        Ok(Compared {
            same: fine == plain.fine && self.difs.waiting() == plain.waiting.as_slice(),
            waits: !plain.waiting.is_empty(),
            fine,
        })
    }

    /// Goes back to a state that was marked.
    pub(crate) fn undo_to(&mut self, store: mars_store::Mark, difs: mars_dif::Mark)
        requires store { IsMark self.old.store store }
        requires difs { IsKeeperMark self.old.difs difs }
        ensures store { self.new.store ≡ undone self.old.store store }
        ensures difs { self.new.difs ≡ keeper_undone self.old.difs difs }
    {
        self.store.undo_to(store);
        self.difs.undo_to(difs);
    }

    /// Rechecks all inequations.
    pub(crate) fn recheck(&mut self) -> Result<bool, NoMemory>
        requires { Serves self.old.difs self.old.store }
        ensures serves { Serves self.new.difs self.new.store }
        ensures grows { Grows self.old.store self.new.store }
        ensures after { IsAfter self.old.difs self.new.difs }
    {
        let fine = recheck(&mut self.difs, &mut self.store)?;
        Ok(fine)
    }
}

/// Tries each inequation.
fn try_all(alloc: Global, store: &mut Store, added: &[(NodeId, NodeId)]) -> Result<Plain, NoMemory>
    ensures { store.new ≡ store.old }
{
    let mut all = Plain {
        waiting: Vec::new(alloc),
        fine: true,
    };
    for dif in added {
        try_one(alloc, store, dif.0, dif.1, &mut all)?;
    }
    Ok(all)
}

/// Tries an inequation, where both nodes are there.
fn try_one(
    alloc: Global,
    store: &mut Store,
    a: NodeId,
    b: NodeId,
    all: &mut Plain,
) -> Result<(), NoMemory>
    ensures { store.new ≡ store.old }
{
    if are_inside(store, a, b) {
        let told = plain(alloc, store, a, b)?;
        if told != Dif::Holds {
            all.waiting.push((a, b))?;
        }
        all.fine &= told != Dif::Fails;
    }
    Ok(())
}
