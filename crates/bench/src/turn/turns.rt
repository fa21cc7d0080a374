//! Threads that take turns at a count: by `mars_turn`, each with a pass of its own, or by std's mutex.
ghost use Rattle.std.specs.Prelude.{◌≡◌, ◌+◌, ◌<◌, ◌^◌, All, Some, IfOk};
ghost use Rattle.mars_turn.specs.Passes.{pass_view, turn_id, MayEnter};

use crate::failing::no_memory;
use crate::turn::counter::Counter;
use mars_base::NoMemory;
use mars_turn::{Pass, Turn};
use std::alloc::Global;
use std::sync::{Mutex, Wait};
use std::thread::Threads;
use std::time::{Clock, Instant};
use std::{io, thread};

/// What came of a run.
#[derive(Clone, Copy)]
pub(crate) struct Measured {
    pub(crate) count: u64,
    pub(crate) nanoseconds: u128,
}

/// So many passes, split off the opening one.
fn passes_of(
    alloc: Global,
    turn: &Turn<Counter>,
    opening: &mut Pass<Counter>,
    threads: u16,
) -> Result<Vec<Pass<Counter>>, NoMemory>
    requires opening { MayEnter (turn_id turn.now) opening.old }
    requires first { ((pass_view opening.old).number ≡ 0) × ((pass_view opening.old).made ≡ Some 1) }
    ensures passes { IfOk result (λ passes. All (λ p. MayEnter (turn_id turn.now) p) passes.items) }
    ensures opening { IfOk result (λ passes. MayEnter (turn_id turn.now) opening.new) }
{
    let mut passes = Vec::new(alloc);
    for _ in 0..threads {
        let pass = turn.split(opening);
        passes.push(pass)?;
    }
    Ok(passes)
}

/// Takes so many turns, and counts one at each.
fn take_turns<R: Wait>(rt: &R, turn: &Turn<Counter>, pass: &mut Pass<Counter>, turns: u64)
    requires { MayEnter (turn_id turn.now) pass.old }
    ensures { MayEnter (turn_id turn.now) pass.new }
{
    for _ in 0..turns {
        let mut counter = turn.enter(rt, pass);
        counter.step();
        turn.leave(pass, counter);
    }
}

/// A thread for each pass.
fn run_turns<R: Threads + Wait + Sync>(
    rt: &R,
    turn: &Turn<Counter>,
    passes: &mut [Pass<Counter>],
    turns: u64,
)
    requires { All (λ p. MayEnter (turn_id turn.now) p) passes.old }
    ensures { All (λ p. MayEnter (turn_id turn.now) p) passes.new }
{
    let threads = passes.len().max(1);
    thread::for_each_mut(
        rt,
        passes,
        threads,
        &|_, pass| { take_turns(rt, turn, pass, turns) },
    );
}

/// So many threads count by turns.
pub(crate) fn count_by_turn<R: Threads + Wait + Sync + Clock>(
    rt: &R,
    alloc: Global,
    threads: u16,
    turns: u64,
) -> io::Result<Measured> {
    let (turn, mut opening) = Turn::open(alloc, Counter { count: 0 }).map_err(no_memory)?;
    let mut passes = passes_of(alloc, &turn, &mut opening, threads).map_err(no_memory)?;
    let start = Instant::now(rt)?;
    run_turns(rt, &turn, passes.as_mut_slice(), turns);
    let nanoseconds = start.elapsed(rt)?.as_nanos();
    let counter = turn.enter(rt, &mut opening);
    let count = counter.count;
    turn.leave(&mut opening, counter);
    Ok(Measured { count, nanoseconds })
}

/// Takes the lock so many times, and counts one at each.
fn take_locks<R: Wait>(rt: &R, lock: &Mutex<Counter>, turns: u64) {
    for _ in 0..turns {
        lock.lock(rt).step();
    }
}

/// So many threads count under a mutex.
pub(crate) fn count_by_mutex<R: Threads + Wait + Sync + Clock>(
    rt: &R,
    alloc: Global,
    threads: u16,
    turns: u64,
) -> io::Result<Measured> {
    let lock = Mutex::new(Counter { count: 0 });
    let start = Instant::now(rt)?;
    thread::map_indices(
        rt,
        alloc,
        usize::from(threads),
        &|_| { take_locks(rt, &lock, turns) },
    )?;
    let nanoseconds = start.elapsed(rt)?.as_nanos();
    let count = lock.lock(rt).count;
    Ok(Measured { count, nanoseconds })
}
