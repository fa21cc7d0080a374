//! What is read of a source: an input that can be run, or what is due without a run.
ghost use Rattle.std.specs.Prelude.{◌≡◌, ◌≢◌, ◌<◌, ◌≤◌, ◌+◌, ℕ, List, [], length, IfOk, codes};
ghost use Rattle.mars_base.specs.Faults.{Rose};
ghost use Rattle.mars_io.specs.Whole.{TakesAtMost, HasRead};
ghost use Rattle.mars_read.specs.declared.error.ReadError.TheVariants as why;
ghost use Rattle.mars_read.specs.ReadInput.{IsReadInput, IsNoInput};
ghost use Rattle.marseille.specs.Refusal.{refusal_line};
ghost use Rattle.marseille.specs.Top.{IsReading, IsReadingOf};

use crate::refusal::refusal_line;
use crate::running::names_sessions;
use crate::status::Status;
use mars_base::NoMemory;
use mars_io::{Source, SourceError, read_whole};
use mars_read::{ReadError, TEXT_LIMIT, read_input};
use mars_script::{Input, SessionNumbers};
use mars_table::Entry;
use std::alloc::Global;

/// An output that is due, with its status and the history of the table.
#[derive(Drop)]
pub(crate) struct DueOutput {
    pub(crate) status: Status,
    pub(crate) output: Vec<u8>,
    pub(crate) history: Vec<Entry>,
}

/// What reading gives.
#[derive(Drop)]
pub(crate) enum Reading {
    /// An input that can be run.
    Runs(Input),
    /// What is due without a run.
    Told(DueOutput),
}

/// What is due where the order names a session that the input lacks.
fn misordered(alloc: Global) -> Result<DueOutput, NoMemory>
    ensures { IfOk result (λ due. (due.status ≡ Status.Words) × (due.output.items ≡ codes "words refused\n") × (due.history.items ≡ [])) }
{
    Ok(DueOutput {
        status: Status::Words,
        output: Vec::from_slice(alloc, b"words refused\n")?,
        history: Vec::new(alloc),
    })
}

/// What is due of an input that is refused.
fn refused(alloc: Global, error: ReadError) -> Result<DueOutput, NoMemory>
    ensures cause { IfOk result (λ due. error ≢ why.NoMemory) }
    ensures due { IfOk result (λ due. (due.status ≡ Status.Refused) × (due.output.items ≡ refusal_line error) × (due.history.items ≡ [])) }
    ensures some { IfOk result (λ due. 0 < length due.output.items) }
{
    Ok(DueOutput {
        status: Status::Refused,
        output: refusal_line(alloc, error)?,
        history: Vec::new(alloc),
    })
}

/// What the bytes of an input give.
fn read_bytes(
    alloc: Global,
    order: &Option<SessionNumbers>,
    bytes: &[u8],
) -> Result<Reading, NoMemory>
    ensures { IfOk result (IsReadingOf order.now bytes.now) }
{
    match read_input(alloc, bytes) {
        Ok(input) => {
            if names_sessions(order, &input) {
                return Ok(Reading::Runs(input));
            }
            Ok(Reading::Told(misordered(alloc)?))
        }
        Err(error) => Ok(Reading::Told(refused(alloc, error)?)),
    }
}

/// Reads the source to its end: the input that it says, or what is due where that can't be run.
pub(crate) fn read_source<S: Source>(
    alloc: Global,
    order: &Option<SessionNumbers>,
    source: &mut S,
) -> Result<Reading, SourceError>
    ensures reading { IfOk result (IsReading order.now (S.left source.old) (S.left source.new)) }
    ensures taken { TakesAtMost (TEXT_LIMIT + 1) (S.left source.old) (S.left source.new) }
    ensures failed { result ≡ Err SourceError.Failed → Rose (S.faults source.old) (S.faults source.new) }
{
    let bytes = read_whole(alloc, source, TEXT_LIMIT)?;
    Ok(read_bytes(alloc, order, &bytes)?)
}
