//! A store with a keeper of inequations that serves it.
ghost use Rattle.std.specs.Prelude.{◌≡◌};
ghost use Rattle.mars_store.specs.System.{IsMark, undone};
ghost use Rattle.mars_dif.specs.Kept.{Serves, IsKeeperMark, keeper_undone};
ghost use Rattle.rows_equations.specs.LastsInside.{StoreLasts, KeeperLasts};

use crate::building::is_inside;
use crate::keeping::{bind, differ, equate, keeper_of, recheck};
use mars_base::NoMemory;
use mars_dif::{Dif, DifStore};
use mars_store::{NodeId, Store};
use mars_unify::Unified;
use std::alloc::Global;

/// A store, and the inequations that wait on it.
#[derive(Drop)]
pub(crate) struct World {
    pub(crate) alloc: Global,
    pub(crate) store: Store,
    pub(crate) difs: DifStore,
}

impl World {
    /// A store with a keeper without inequations.
    pub(crate) fn new(alloc: Global, store: Store) -> World
        ensures { Serves result.difs result.store }
    {
        let difs = keeper_of(alloc, &store);
        World { alloc, store, difs }
    }

    /// Makes two nodes equal, where they are there and can be.
    pub(crate) fn equate(&mut self, a: NodeId, b: NodeId) -> Result<Option<Unified>, NoMemory>
        requires { Serves self.old.difs self.old.store }
        ensures serves { Serves self.new.difs self.new.store }
        ensures store { StoreLasts self.old.store self.new.store }
        ensures difs { KeeperLasts self.old.difs self.new.difs }
    {
        if !is_inside(&self.store, a) || !is_inside(&self.store, b) {
            return Ok(None);
        }
        let unified = equate(self.alloc, &self.difs, &mut self.store, a, b)?;
        Ok(Some(unified))
    }

    /// Adds an inequation of two nodes, where they are there.
    pub(crate) fn differ(&mut self, a: NodeId, b: NodeId) -> Result<Option<Dif>, NoMemory>
        requires { Serves self.old.difs self.old.store }
        ensures serves { Serves self.new.difs self.new.store }
        ensures store { StoreLasts self.old.store self.new.store }
        ensures difs { KeeperLasts self.old.difs self.new.difs }
    {
        if !is_inside(&self.store, a) || !is_inside(&self.store, b) {
            return Ok(None);
        }
        let dif = differ(&mut self.difs, &mut self.store, a, b)?;
        Ok(Some(dif))
    }

    /// Rechecks all inequations.
    pub(crate) fn recheck(&mut self) -> Result<bool, NoMemory>
        requires { Serves self.old.difs self.old.store }
        ensures serves { Serves self.new.difs self.new.store }
        ensures store { StoreLasts self.old.store self.new.store }
        ensures difs { KeeperLasts self.old.difs self.new.difs }
    {
        let fine = recheck(&mut self.difs, &mut self.store)?;
        Ok(fine)
    }

    /// Binds a variable to another node, where it is free and the node leads elsewhere.
    pub(crate) fn bind(&mut self, var: NodeId, to: NodeId) -> Result<bool, NoMemory>
        requires { Serves self.old.difs self.old.store }
        ensures serves { Serves self.new.difs self.new.store }
        ensures store { StoreLasts self.old.store self.new.store }
        ensures difs { KeeperLasts self.old.difs self.new.difs }
    {
        let bound = bind(&self.difs, &mut self.store, var, to)?;
        Ok(bound)
    }

    /// Goes back to a state that was marked.
    pub(crate) fn undo_to(&mut self, store: mars_store::Mark, difs: mars_dif::Mark)
        requires store { IsMark self.old.store store }
        requires difs { IsKeeperMark self.old.difs difs }
        ensures store { self.new.store ≡ undone self.old.store store }
        ensures difs { self.new.difs ≡ keeper_undone self.old.difs difs }
    {
        self.store.undo_to(store);
        self.difs.undo_to(difs);
    }
}
