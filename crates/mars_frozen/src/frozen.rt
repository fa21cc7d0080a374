//! Goals that wait until a term is known: pairs, and for each the free variable at which its first part ends.
ghost use Rattle.std.specs.Prelude.{◌≡◌, ℕ, length, OnOk, OnErr, IfOk};
ghost use Rattle.mars_watch.specs.Lined.{AreAscending, without, IsLaterLine};
ghost use Rattle.mars_watch.specs.Watched.{CutAt};
ghost use Rattle.mars_frozen.specs.Freezing.{FrozenPairs, no_frozen, with_frozen, waiting_pairs, AreWoken, CanWake, IsLaterFrozen, IsFrozenMark, frozen_mark, frozen_undone};
ghost use Rattle.mars_frozen.specs.FrozenInside.{AreAllTouched};

use crate::mark::Mark;
use crate::waking::{add_unfiled, goals_at, known_places};
use mars_base::NoMemory;
use mars_store::{NodeId, Store};
use mars_watch::{Line, Watchers, gather_bound};
use std::alloc::Global;
use std::marker::Model;

/// Frozen pairs of one store: a node, and a goal that waits until the node's root is known. `wake` takes that store, to
/// which only nodes and bindings were added since the last call; both are undone together, to marks that were made
/// together. At `NoMemory` each call leaves the pairs as before.
#[derive(Drop)]
pub struct Frozen {
    alloc: Global,
    pairs: Line<(NodeId, NodeId)>,
    /// The number of each pair that waits: how many changes were made before it was frozen.
    numbers: Line<usize>,
    /// At which variable the pair of which number waits.
    watchers: Watchers,
    /// From which number on pairs wait at no variable yet.
    filed: usize,
    /// How many of the store's bindings were looked at.
    seen: usize,
}

impl Model for Frozen {
    ghost use Rattle.std.specs.Prelude.{◌≡◌, length};
    ghost use Rattle.mars_frozen.specs.Freezing.{FrozenPairs};

    ghost Value = { FrozenPairs };

    ghost view = { λ f. record { pairs = f.pairs; numbers = f.numbers; watches = f.watchers; filed = f.filed; seen = f.seen } };

    ghost invariant = { λ f. length f.numbers.past ≡ length f.pairs.past };
}

impl Frozen {
    /// Nothing is frozen.
    pub fn new(alloc: Global) -> Frozen
        ensures { result ≡ no_frozen }
    {
        Frozen {
            alloc,
            pairs: Line::new(alloc),
            numbers: Line::new(alloc),
            watchers: Watchers::new(alloc),
            filed: 0,
            seen: 0,
        }
    }

    /// Freezes a goal until a node's root is known. Both are nodes of the store of the pairs. Constant.
    pub fn add(&mut self, on: NodeId, goal: NodeId) -> Result<(), NoMemory>
        ensures ok { OnOk result (self.new ≡ with_frozen self.old (on, goal)) }
        ensures after { IsLaterFrozen self.old self.new }
        ensures err { OnErr result (self.new ≡ self.old) }
    {
        let number = self.numbers.changes();
        self.numbers.add(number)?;
        if let Err(error) = self.pairs.add((on, goal)) {
            self.numbers.undo_to(number);
            return Err(error);
        }
        Ok(())
    }

    /// Takes out the pairs whose node's root is now known, and gives their goals in the order of freezing. It looks at
    /// the bindings since the last call, at the pairs that waited at these variables, and at those frozen since; of the pairs
    /// that wait on, those after the first that leaves are moved.
    pub fn wake(&mut self, store: &Store) -> Result<Vec<NodeId>, NoMemory>
        requires { CanWake self.old store.now }
        ensures woken { IfOk result (λ goals. AreWoken store.now (waiting_pairs self.old) goals.items (waiting_pairs self.new)) }
        ensures ready { OnOk result (CanWake self.new store.now) }
        ensures after { IsLaterFrozen self.old self.new }
        ensures err { OnErr result (self.new ≡ self.old) }
    {
        let mark = self.mark();
        match self.wake_known(store) {
            Ok(goals) => Ok(goals),
            Err(error) => {
                self.undo_to(mark);
                Err(error)
            }
        }
    }

    /// Takes out the pairs that are known. Out of memory may leave some looked at.
    fn wake_known(&mut self, store: &Store) -> Result<Vec<NodeId>, NoMemory>
        requires { CanWake self.old store.now }
        ensures woken { IfOk result (λ goals. AreWoken store.now (waiting_pairs self.old) goals.items (waiting_pairs self.new)) }
        ensures ready { OnOk result (CanWake self.new store.now) }
        ensures after { IsLaterFrozen self.old self.new }
    {
        let touched = self.touched(store)?;
        let places = known_places(
            self.alloc,
            store,
            self.pairs.now(),
            self.numbers.now(),
            &touched,
            &mut self.watchers,
        )?;
        let goals = goals_at(self.alloc, self.pairs.now(), &places)?;
        self.leave(&places)?;
        self.filed = self.numbers.changes();
        self.seen = store.mark().bound;
        Ok(goals)
    }

    /// The numbers of the pairs to look at: those at a variable that was bound, and those frozen since the last wake.
    fn touched(&self, store: &Store) -> Result<Vec<usize>, NoMemory>
        requires { CanWake self.now store.now }
        ensures { IfOk result (λ touched. AreAllTouched self.now store.now touched.items) }
    {
        let _mark = store.mark();
        let mut touched = Vec::new(self.alloc);
        gather_bound(&self.watchers, store, self.seen, &mut touched)?;
        add_unfiled(self.numbers.now(), self.filed, &mut touched)?;
        Ok(touched)
    }

    /// Takes the pairs at places out.
    fn leave(&mut self, places: &[usize]) -> Result<(), NoMemory>
        requires pairs { AreAscending 0 places.now (length self.old.pairs.now) }
        requires numbers { AreAscending 0 places.now (length self.old.numbers.now) }
        ensures ok { OnOk result ((self.new.pairs.now ≡ without 0 places.now self.old.pairs.now) × (self.new.numbers.now ≡ without 0 places.now self.old.numbers.now)) }
        ensures pairs { IsLaterLine self.old.pairs self.new.pairs }
        ensures numbers { IsLaterLine self.old.numbers self.new.numbers }
        ensures watches { self.new.watches ≡ self.old.watches }
        ensures err { OnErr result (self.new ≡ self.old) }
    {
        if places.is_empty() {
            return Ok(());
        }
        let changes = self.numbers.changes();
        self.numbers.leave(places)?;
        if let Err(error) = self.pairs.leave(places) {
            self.numbers.undo_to(changes);
            return Err(error);
        }
        Ok(())
    }

    /// The pairs that wait, in the order of freezing.
    pub fn waiting(&self) -> &[(NodeId, NodeId)]
        ensures { result.now ≡ waiting_pairs self.now }
    {
        self.pairs.now()
    }

    /// The present state.
    pub fn mark(&self) -> Mark
        ensures mark { result ≡ frozen_mark self.now }
        ensures made { IsFrozenMark self.now result }
        ensures back { frozen_undone self.now result ≡ self.now }
    {
        Mark {
            changes: self.pairs.changes(),
            watches: self.watchers.len(),
            filed: self.filed,
            seen: self.seen,
        }
    }

    /// Goes back to a state that was marked. What is undone costs what it cost to do.
    pub fn undo_to(&mut self, mark: Mark)
        requires { IsFrozenMark self.old mark }
        ensures { self.new ≡ frozen_undone self.old mark }
    {
        self.pairs.undo_to(mark.changes);
        self.numbers.undo_to(mark.changes);
        self.watchers.undo_to(mark.watches);
        self.filed = mark.filed;
        self.seen = mark.seen;
    }
}
