//! Reading a source to its end.
ghost use Rattle.std.specs.Prelude.{◌≡◌, ◌<◌, ◌≤◌, ◌+◌, ◌^◌, vec_len, IfOk};
ghost use Rattle.mars_base.specs.Faults.{Rose};
ghost use Rattle.mars_io.specs.Whole.{TakesAtMost, HasRead};

use crate::source::{Source, Taken};
use mars_base::NoMemory;
use std::alloc::{AllocError, Global};

/// Why a source wasn't read.
#[derive(Clone, Copy, Debug, PartialEq, Eq)]
pub enum SourceError {
    /// There was a fault.
    Failed,
    /// Out of memory.
    NoMemory,
}

impl From<NoMemory> for SourceError {
    ghost use Rattle.std.specs.Prelude.{◌≡◌};
    ghost use Rattle.mars_io.specs.declared.whole.SourceError.TheVariants as why;

    ghost from_gives = { λ _ error. error ≡ why.NoMemory };

    fn from(_error: NoMemory) -> SourceError {
        SourceError::NoMemory
    }
}

impl From<AllocError> for SourceError {
    ghost use Rattle.std.specs.Prelude.{◌≡◌};
    ghost use Rattle.mars_io.specs.declared.whole.SourceError.TheVariants as why;

    ghost from_gives = { λ _ error. error ≡ why.NoMemory };

    fn from(_error: AllocError) -> SourceError {
        SourceError::NoMemory
    }
}

/// How many bytes are asked for at a time.
const CHUNK: usize = 65536;

/// Room for so many bytes.
fn room_for(alloc: Global, count: usize) -> Result<Vec<u8>, NoMemory>
    ensures { IfOk result (λ room. vec_len room ≡ count) }
{
    let room = vec![in alloc; 0u8; count]?;
    Ok(room)
}

/// Reads all bytes of a source, but no more than `limit` and one byte: a result that is longer than `limit` says that
/// there were too many. Each turn of the loop takes at least one byte.
pub fn read_whole<S: Source>(
    alloc: Global,
    source: &mut S,
    limit: usize,
) -> Result<Vec<u8>, SourceError>
    requires { limit < 2 ^ 32 }
    ensures read { IfOk result (λ bytes. HasRead limit (S.left source.old) (S.left source.new) bytes.items) }
    ensures taken { TakesAtMost (limit + 1) (S.left source.old) (S.left source.new) }
    ensures later { S.faults source.old ≤ S.faults source.new }
    ensures cause { result ≡ Err SourceError.Failed → Rose (S.faults source.old) (S.faults source.new) }
{
    let mut bytes = Vec::new(alloc);
    let mut chunk = room_for(alloc, CHUNK)?;
    'turns: while bytes.len() <= limit {
        let want = CHUNK.min(limit + 1 - bytes.len());
        let room = &mut chunk[..want];
        match source.read(room) {
            Taken::Got(count) => bytes.extend_from_slice(&room[..count])?,
            Taken::End => return Ok(bytes),
            Taken::Failed => return Err(SourceError::Failed),
        }
    }
    Ok(bytes)
}
