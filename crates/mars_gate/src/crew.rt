//! All jobs, each with its pass.
ghost use Rattle.std.specs.Prelude.{◌≡◌, IfOk, map, vec_len};
ghost use Rattle.mars_gate.specs.declared.worker.Worker.{Worker};

use crate::worker::Worker;
use mars_base::NoMemory;
use mars_book::BookPass;
use std::alloc::Global;

/// Each job with the pass at its place.
pub(crate) fn pair<J: Drop>(
    alloc: Global,
    mut jobs: Vec<J>,
    mut passes: Vec<BookPass>,
) -> Result<Vec<Worker<J>>, NoMemory>
    requires { vec_len jobs ≡ vec_len passes }
    ensures jobs { IfOk result (λ workers. map (λ w. w.job) workers.items ≡ jobs.items) }
    ensures passes { IfOk result (λ workers. map (λ w. w.pass) workers.items ≡ passes.items) }
{
    let mut workers = Vec::with_capacity(alloc, jobs.len())?;
    while let Some(job) = jobs.pop() {
        let Some(pass) = passes.pop() else {
            unreachable!()
        };
        workers.push(Worker { job, pass })?;
    }
    workers.reverse();
    Ok(workers)
}

/// The jobs, and the passes beside them.
pub(crate) fn part<J: Drop>(
    alloc: Global,
    mut workers: Vec<Worker<J>>,
) -> Result<(Vec<J>, Vec<BookPass>), NoMemory>
    ensures jobs { IfOk result (λ r. r.0.items ≡ map (λ w. w.job) workers.items) }
    ensures passes { IfOk result (λ r. r.1.items ≡ map (λ w. w.pass) workers.items) }
{
    let mut jobs = Vec::with_capacity(alloc, workers.len())?;
    let mut passes = Vec::with_capacity(alloc, workers.len())?;
    while let Some(worker) = workers.pop() {
        let Worker { job, pass } = worker;
        jobs.push(job)?;
        passes.push(pass)?;
    }
    jobs.reverse();
    passes.reverse();
    Ok((jobs, passes))
}
