//! Jobs in threads over one book, from the opening pass to the closing calls.
ghost use Rattle.std.specs.Prelude.{◌≡◌, ◌+◌, ◌<◌, ◌^◌, ℕ, [], All, IfOk, Some, length, map, slice_get, vec_len};
ghost use Rattle.std.specs.List.{AllZip};
ghost use Rattle.mars_turn.specs.Steps.{opening_view};
ghost use Rattle.mars_table.specs.History.{Legal};
ghost use Rattle.mars_book.specs.Books.{IsPassOf};
ghost use Rattle.mars_gate.specs.declared.worker.Worker.{Worker};
ghost use Rattle.mars_gate.specs.Jobs.{AreNewJobs, JobHasEnded};
ghost use Rattle.mars_gate.specs.Closing.{ClosingIsLast, closing_entries};
ghost use Rattle.mars_gate.specs.PassesInside.{IsHired};
ghost use Rattle.mars_gate.specs.WorkersInside.{IsWorker, EndsWork};

use crate::closing::{ClosingReplies, meet_and_close};
use crate::crew::{pair, part};
use crate::job::Job;
use crate::passes::passes_of;
use crate::worker::{Worker, work_all};
use mars_base::NoMemory;
use mars_book::{Book, BookPass};
use mars_io::Gate;
use mars_table::Table;
use std::alloc::Global;
use std::sync::Wait;
use std::thread::Threads;

/// Jobs after their last events, and the table after the closing calls.
#[derive(Drop)]
pub struct Closed<J: Drop> {
    /// The jobs, each at its place.
    pub jobs: Vec<J>,
    /// What the closing calls replied.
    pub replies: ClosingReplies,
    pub table: Table,
}

/// Gives each job the pass of its number, of which the first is the opening one. The last pass is the program's.
fn hire<J: Drop>(
    alloc: Global,
    book: &Book,
    opening: BookPass,
    jobs: Vec<J>,
) -> Result<(Vec<Worker<J>>, BookPass), NoMemory>
    requires of { IsPassOf book.now opening }
    requires opening { opening.view ≡ opening_view book.now.cap }
    requires few { vec_len jobs + 1 < 2 ^ 32 }
    ensures jobs { IfOk result (λ r. map (λ w. w.job) r.0.items ≡ jobs.items) }
    ensures passes { IfOk result (λ r. (k : ℕ) (w : Worker J) → slice_get r.0.items k ≡ Some w → IsHired book.now (length jobs.items + 1) k w.pass × (w.pass.view.mine ≡ [])) }
    ensures program { IfOk result (λ r. IsHired book.now (length jobs.items + 1) (length jobs.items) r.1 × (r.1.view.mine ≡ [])) }
{
    let more = jobs.len() as u32;
    let mut passes = passes_of(alloc, book, opening, more)?;
    let Some(program) = passes.pop() else {
        unreachable!()
    };
    let workers = pair(alloc, jobs, passes)?;
    Ok((workers, program))
}

/// Does all events of each job.
fn work_each<J: Job + Drop + Send, G: Gate, R: Threads + Wait + Sync>(
    rt: &R,
    book: &Book,
    gate: &G,
    workers: &mut Vec<Worker<J>>,
)
    requires { All (λ w. IsWorker J.job J.Lacks J.Later book.now w.job w.pass) workers.old.items }
    ensures { AllZip (λ v w. EndsWork J.job J.Lacks J.Later J.IsDone book.now v.job v.pass w.job w.pass) workers.old.items workers.new.items }
{
    work_all(rt, book, gate, workers.as_mut_slice());
}

/// Runs jobs in threads over one book with so many rows at most, and makes the closing calls. Job k has number k and the
/// pass of that number; the program's calls have the number of jobs. Each call of a job goes through the gate.
///
/// It may wait for ever, as each call of a job may. Out of memory is an answer of the program's own part; a job that is
/// out of memory is cut, beside others that go on.
pub fn run_jobs<J: Job + Drop + Send, G: Gate, R: Threads + Wait + Sync>(
    rt: &R,
    alloc: Global,
    jobs: Vec<J>,
    cap: u64,
    gate: &G,
) -> Result<Closed<J>, NoMemory>
    requires few { vec_len jobs + 1 < 2 ^ 32 }
    requires new { AreNewJobs J.job jobs.items }
    ensures limit { IfOk result (λ r. r.table.cap ≡ cap) }
    ensures legal { IfOk result (λ r. Legal cap r.table.history) }
    ensures jobs { IfOk result (λ r. AllZip (JobHasEnded J.job J.Lacks J.Later J.IsDone r.table.history) jobs.items r.jobs.items) }
    ensures closing { IfOk result (λ r. ClosingIsLast (length jobs.items) (closing_entries (length jobs.items) r.replies) r.table.history) }
{
    let (book, opening) = Book::open(alloc, cap)?;
    let (mut workers, program) = hire(alloc, &book, opening, jobs)?;
    work_each(rt, &book, gate, &mut workers);
    let (jobs, passes) = part(alloc, workers)?;
    let (table, replies) = meet_and_close(rt, book, program, passes)?;
    Ok(Closed {
        jobs,
        replies,
        table,
    })
}
