//! A job with its pass of the book, in a thread.
ghost use Rattle.std.specs.Prelude.{◌≡◌, ◌<◌, All, length, slice_index_or, ℕ};
ghost use Rattle.mars_gate.specs.WorkersInside.{IsWorker, KeepsWork, EndsWork};
ghost use Rattle.mars_gate.specs.declared.worker.Worker.{Worker};

use crate::gate_door::GateDoor;
use crate::job::{Advance, Job};
use mars_book::{Book, BookPass};
use mars_io::Gate;
use std::sync::Wait;
use std::thread;
use std::thread::Threads;

/// A job and its pass.
#[derive(Drop)]
pub(crate) struct Worker<J: Drop> {
    pub(crate) job: J,
    pub(crate) pass: BookPass,
}

/// One event of the job over the book, with the gate at its call. `nth` is how many calls it made before; the answer has
/// how many it made by then.
fn step<J: Job + Drop, G: Gate, R: Wait>(
    rt: &R,
    book: &Book,
    gate: &G,
    worker: &mut Worker<J>,
    nth: u64,
) -> (Advance, u64)
    requires { IsWorker J.job J.Lacks J.Later book.now worker.old.job worker.old.pass }
    ensures keeps { KeepsWork J.job J.Lacks J.Later book.now worker.old.job worker.old.pass worker.new.job worker.new.pass }
    ensures done { result.0 ≡ Advance.Done → J.IsDone worker.new.job }
{
    let Worker { job, pass } = worker;
    let mut door = GateDoor::new(rt, book, pass, gate, nth);
    let came = job.event(&mut door);
    (came, door.calls())
}

/// Does all events of the job.
fn work<J: Job + Drop, G: Gate, R: Wait>(rt: &R, book: &Book, gate: &G, worker: &mut Worker<J>)
    requires { IsWorker J.job J.Lacks J.Later book.now worker.old.job worker.old.pass }
    ensures { EndsWork J.job J.Lacks J.Later J.IsDone book.now worker.old.job worker.old.pass worker.new.job worker.new.pass }
{
    let mut nth = 0;
    for _ in rt.forever() {
        let (came, made) = step(rt, book, gate, worker, nth);
        if came == Advance::Done {
            return;
        }
        nth = made;
    }
    unreachable!()
}

/// Does all events of each job, each in a thread of its own where one can be started.
pub(crate) fn work_all<J: Job + Drop + Send, G: Gate, R: Threads + Wait + Sync>(
    rt: &R,
    book: &Book,
    gate: &G,
    workers: &mut [Worker<J>],
)
    requires { All (λ w. IsWorker J.job J.Lacks J.Later book.now w.job w.pass) workers.old }
    ensures { (k : ℕ) (d : Worker J) → k < length workers.old → EndsWork J.job J.Lacks J.Later J.IsDone book.now (slice_index_or workers.old k d).job (slice_index_or workers.old k d).pass (slice_index_or workers.new k d).job (slice_index_or workers.new k d).pass }
{
    let threads = workers.len().max(1);
    thread::for_each_mut(
        rt,
        workers,
        threads,
        &|_: usize, worker: &mut Worker<J>|
            requires { IsWorker J.job J.Lacks J.Later book.now worker.now.job worker.now.pass }
            ensures { EndsWork J.job J.Lacks J.Later J.IsDone book.entry.now worker.entry.now.job worker.entry.now.pass worker.exit.now.job worker.exit.now.pass }
        { work(rt, book, gate, worker) },
    );
}
