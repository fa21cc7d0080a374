//! Unifies the two nodes of a workload again and again, and takes the time.
ghost use Rattle.std.specs.Prelude.{◌≡◌, ◌<◌, length};

use crate::equations::workloads::Workload;
use mars_base::NoMemory;
use mars_store::{NodeId, Store};
use mars_unify::{Unified, unify};
use std::alloc::Global;
use std::io;
use std::time::{Clock, Instant};

/// The nanoseconds of so many calls, each undone.
pub fn nanoseconds(
    clock: &impl Clock,
    alloc: Global,
    work: Workload,
    calls: u64,
) -> io::Result<u128> {
    let Workload {
        mut store,
        left,
        right,
        ..
    } = work;
    let start = Instant::now(clock)?;
    for _ in 0..calls {
        if unify_and_undo(alloc, &mut store, left, right).is_err() {
            return Err(io::Error::from(io::ErrorKind::OutOfMemory));
        }
    }
    Ok(start.elapsed(clock)?.as_nanos())
}

/// How many pairs one call meets, and its answer.
pub fn answer(alloc: Global, work: Workload) -> Result<(usize, Unified), NoMemory> {
    let Workload {
        mut store,
        left,
        right,
        pairs,
    } = work;
    Ok((pairs, unify_and_undo(alloc, &mut store, left, right)?))
}

/// What unification answers, after which the store is as before.
fn unify_and_undo(
    alloc: Global,
    store: &mut Store,
    a: NodeId,
    b: NodeId,
) -> Result<Unified, NoMemory>
    requires a_in { a < length store.old.nodes }
    requires b_in { b < length store.old.nodes }
    ensures { store.new ≡ store.old }
{
    let mark = store.mark();
    let answer = unify(alloc, store, a, b)?;
    if let Unified::Yes { .. } = answer {
        store.undo_to(mark);
    }
    Ok(answer)
}
