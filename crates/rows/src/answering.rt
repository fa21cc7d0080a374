//! The loop over the rows of standard input.
use crate::stopping::Stop;
use std::alloc::{AllocError, Global};
use std::io;
use std::io::Write;

/// Writes each line of standard input again, and after each row `-->` and its answer. A blank line, or one that begins
/// with `--`, is no row. The answer is made from the row's first word and the rest of the row; it is appended to what is
/// there, and where it stops, the reason is written in its place.
pub fn answer_rows<
    R: Input + Print + AllocGlobal,
    F: Fn(Global, &str, &str, &mut Vec<u8>) -> Result<(), Stop>,
>(rt: &R, answer: F) -> io::Result<()>
    requires { F.IsAlwaysCallable answer }
{
    for line in rt.lines(rt.alloc()) {
        let line = line?;
        let text = answered(rt.alloc(), line.as_str(), &answer)?;
        io::writer(rt).write_all(&text)?;
    }
    Ok(())
}

/// A line, and after it its answer where it is a row.
fn answered<F: Fn(Global, &str, &str, &mut Vec<u8>) -> Result<(), Stop>>(
    alloc: Global,
    line: &str,
    answer: &F,
) -> Result<Vec<u8>, AllocError>
    requires { F.IsAlwaysCallable answer.now }
{
    let mut text = Vec::from_slice(alloc, line.as_bytes())?;
    if is_row(line) {
        text.extend_from_slice(b"  -->  ")?;
        push_answer(alloc, line, answer, &mut text)?;
    }
    text.extend_from_slice(b"\n")?;
    Ok(text)
}

/// Appends the answer of a row.
fn push_answer<F: Fn(Global, &str, &str, &mut Vec<u8>) -> Result<(), Stop>>(
    alloc: Global,
    line: &str,
    answer: &F,
    text: &mut Vec<u8>,
) -> Result<(), AllocError>
    requires { F.IsAlwaysCallable answer.now }
{
    let before = text.len();
    let (word, rest) = split_word(line);
    let outcome = answer(alloc, word, rest, text);
    close_answer(outcome, before, text)
}

/// Writes why an answer stopped, in place of what it wrote.
fn close_answer(
    outcome: Result<(), Stop>,
    before: usize,
    text: &mut Vec<u8>,
) -> Result<(), AllocError> {
    match outcome {
        Ok(()) => Ok(()),
        Err(Stop::NoMemory) => Err(AllocError),
        Err(stop) => {
            text.truncate(before);
            text.extend_from_slice(stop.text().as_bytes())?;
            Ok(())
        }
    }
}

/// Whether a line is a row.
fn is_row(line: &str) -> bool {
    !line.trim().is_empty() && !line.starts_with("--")
}

/// The first word of a row, and the rest of it.
fn split_word(line: &str) -> (&str, &str) {
    let row = line.trim();
    match row.split_once(' ') {
        Some((word, rest)) => (word, rest.trim()),
        None => (row, ""),
    }
}
