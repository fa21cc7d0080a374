//! The line of an input that is refused.
ghost use Rattle.std.specs.Prelude.{◌≡◌, ◌≢◌, ◌<◌, ◌++◌, length, IfOk, OnOk, codes};
ghost use Rattle.mars_read.specs.declared.error.ReadError.TheVariants as why;
ghost use Rattle.marseille.specs.Refusal.{limit_word, place_line, refusal_line};

use itoa::Buffer;
use mars_base::NoMemory;
use mars_read::{ReadError, What};
use std::alloc::Global;

/// The word of a limit.
fn limit_word(limit: What) -> &'static str
    ensures { result.now ≡ limit_word limit }
{
    match limit {
        What::Input => "input",
        What::Name => "name",
        What::Literal => "literal",
        What::Nesting => "nesting",
        What::Arity => "arity",
        What::Rules => "rules",
        What::Clause => "clause",
        What::Sessions => "sessions",
        What::Commands => "commands",
        What::Text => "string",
    }
}

/// Writes words and a place, and ends the line.
fn push_place(text: &mut Vec<u8>, words: &str, at: usize) -> Result<(), NoMemory>
    ensures { OnOk result (text.new.items ≡ text.old.items ++ place_line words.now at) }
{
    let mut buffer = Buffer::new();
    text.extend_from_slice(words.as_bytes())?;
    text.extend_from_slice(buffer.format(at).as_bytes())?;
    text.extend_from_slice(b"\n")?;
    Ok(())
}

/// Writes the line of a limit that is passed.
fn push_limit(text: &mut Vec<u8>, limit: What, at: usize) -> Result<(), NoMemory>
    ensures { OnOk result (text.new.items ≡ text.old.items ++ codes "refused E3 " ++ limit_word limit ++ place_line (codes " at ") at) }
{
    text.extend_from_slice(b"refused E3 ")?;
    text.extend_from_slice(limit_word(limit).as_bytes())?;
    push_place(text, " at ", at)
}

/// The line of a refusal. Out of memory stays what it is.
pub(crate) fn refusal_line(alloc: Global, error: ReadError) -> Result<Vec<u8>, NoMemory>
    ensures line { IfOk result (λ text. text.items ≡ refusal_line error) }
    ensures cause { OnOk result (error ≢ why.NoMemory) }
    ensures some { IfOk result (λ text. 0 < length text.items) }
{
    let mut text = Vec::new(alloc);
    match error {
        ReadError::BadByte { at } => push_place(&mut text, "refused E1 at ", at)?,
        ReadError::Syntax { at } => push_place(&mut text, "refused E2 at ", at)?,
        ReadError::Limit { what, at } => push_limit(&mut text, what, at)?,
        ReadError::Builtin { at } => push_place(&mut text, "refused E4 at ", at)?,
        ReadError::Twice { at } => push_place(&mut text, "refused E5 at ", at)?,
        ReadError::NoMemory => return Err(NoMemory),
    }
    Ok(text)
}
