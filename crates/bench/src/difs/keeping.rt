//! Calls on a store and on the keeper that serves it, after each of which it serves it still.
ghost use Rattle.std.specs.Prelude.{◌≡◌, ◌<◌, length};
ghost use Rattle.mars_store.specs.System.{Grows};
ghost use Rattle.mars_dif.specs.Kept.{Serves, IsAfter};

use mars_base::NoMemory;
use mars_dif::{Dif, DifStore};
use mars_store::{NodeId, Store};
use mars_unify::{Unified, unify};
use std::alloc::Global;

/// A keeper for a store.
pub(crate) fn keeper_of(alloc: Global, store: &Store) -> DifStore
    ensures { Serves result store.now }
{
    let _mark = store.mark();
    DifStore::new(alloc)
}

/// Adds an inequation.
pub(crate) fn differ(
    difs: &mut DifStore,
    store: &mut Store,
    a: NodeId,
    b: NodeId,
) -> Result<Dif, NoMemory>
    requires a_in { a < length store.old.nodes }
    requires b_in { b < length store.old.nodes }
    requires serves { Serves difs.old store.old }
    ensures serves { Serves difs.new store.new }
    ensures after { IsAfter difs.old difs.new }
    ensures store { store.new ≡ store.old }
{
    difs.add(store, a, b)
}

/// Rechecks all inequations.
pub(crate) fn recheck(difs: &mut DifStore, store: &mut Store) -> Result<bool, NoMemory>
    requires { Serves difs.old store.old }
    ensures serves { Serves difs.new store.new }
    ensures after { IsAfter difs.old difs.new }
    ensures store { store.new ≡ store.old }
{
    difs.recheck(store)
}

/// Makes two nodes equal, where they can be.
pub(crate) fn equate(
    alloc: Global,
    difs: &DifStore,
    store: &mut Store,
    a: NodeId,
    b: NodeId,
) -> Result<Unified, NoMemory>
    requires a_in { a < length store.old.nodes }
    requires b_in { b < length store.old.nodes }
    requires serves { Serves difs.now store.old }
    ensures serves { Serves difs.now store.new }
    ensures grows { Grows store.old store.new }
{
    let _waiting = difs.waiting();
    unify(alloc, store, a, b)
}

/// What a store says of two nodes that are to differ, by their equality alone.
pub(crate) fn plain(alloc: Global, store: &mut Store, a: NodeId, b: NodeId) -> Result<Dif, NoMemory>
    requires a_in { a < length store.old.nodes }
    requires b_in { b < length store.old.nodes }
    ensures { store.new ≡ store.old }
{
    let mark = store.mark();
    match unify(alloc, store, a, b)? {
        Unified::No => Ok(Dif::Holds),
        Unified::Yes { bound } => {
            store.undo_to(mark);
            if bound == 0 {
                Ok(Dif::Fails)
            } else {
                Ok(Dif::Waits)
            }
        }
    }
}
