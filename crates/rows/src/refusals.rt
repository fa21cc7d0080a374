//! Refusals of texts.
use crate::stopping::Stop;
use mars_read::{ReadError, What};

/// Writes a refusal: its number, which limit was passed, and its place.
pub fn push_refusal(error: ReadError, into: &mut Vec<u8>) -> Result<(), Stop> {
    match error {
        ReadError::BadByte { at } => push_place("E1", at, into),
        ReadError::Syntax { at } => push_place("E2", at, into),
        ReadError::Limit { what, at } => push_place(limit_words(what), at, into),
        ReadError::Builtin { at } => push_place("E4", at, into),
        ReadError::Twice { at } => push_place("E5", at, into),
        ReadError::NoMemory => Err(Stop::NoMemory),
    }
}

/// The words for a limit.
fn limit_words(what: What) -> &'static str {
    match what {
        What::Input => "E3 input",
        What::Name => "E3 name",
        What::Literal => "E3 literal",
        What::Nesting => "E3 nesting",
        What::Arity => "E3 arity",
        What::Rules => "E3 rules",
        What::Clause => "E3 clause",
        What::Sessions => "E3 sessions",
        What::Commands => "E3 commands",
        What::Text => "E3 string",
    }
}

/// Writes a refusal and its place.
fn push_place(word: &str, at: usize, into: &mut Vec<u8>) -> Result<(), Stop> {
    into.extend_from_slice(word.as_bytes())?;
    into.extend_from_slice(format!(in *into.allocator(); " at {at}")?.as_bytes())?;
    Ok(())
}
