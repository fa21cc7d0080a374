//! Answers rows on rule bases: which rules a call may take, what taking them makes, copies of rules, and equality. `stdin`
//! has the rows, `stdout` the rows with their answers.
#![tactic(auto)]

ghost use Rattle.mars_scripts.specs.WellFormed.{IsWellFormedInput, IsWellFormedScript};

mod bases;
mod copying;
mod finding;
mod taking;
mod terms;

use bases::{base_of, push_equal, push_versions};
use copying::push_copies;
use finding::push_finds;
use mars_read::read_input;
use mars_script::{Input, Script};
use rows::{Stop, answer_rows, push_refusal, unfolded_text};
use std::alloc::Global;
use std::io;
use taking::push_takes;

fn main(rt: HostRuntime) -> io::Result<()> {
    answer_rows(&rt, answer)
}

/// The answer of a row, by its first word.
fn answer(alloc: Global, word: &str, rest: &str, into: &mut Vec<u8>) -> Result<(), Stop> {
    let text = unfolded_text(alloc, rest)?;
    match read_input(alloc, text.as_bytes()) {
        Ok(input) => answer_input(alloc, word, &input, into),
        Err(error) => push_refusal(error, into),
    }
}

/// Answers a row whose input was read.
fn answer_input(alloc: Global, word: &str, input: &Input, into: &mut Vec<u8>) -> Result<(), Stop>
    requires { IsWellFormedInput input.now }
{
    match word {
        "equal" => push_equal(alloc, input, into),
        "versions" => push_versions(alloc, input, into),
        _ => push_sessions(alloc, word, input, into),
    }
}

/// Answers a row for each session.
fn push_sessions(alloc: Global, word: &str, input: &Input, into: &mut Vec<u8>) -> Result<(), Stop>
    requires { IsWellFormedInput input.now }
{
    for session in input.sessions.as_slice() {
        push_session(alloc, word, input, session, into)?;
    }
    Ok(())
}

/// Answers a row for one session.
fn push_session(
    alloc: Global,
    word: &str,
    input: &Input,
    session: &Script,
    into: &mut Vec<u8>,
) -> Result<(), Stop>
    requires input { IsWellFormedInput input.now }
    requires session { IsWellFormedScript session.now }
{
    let base = base_of(alloc, input, session)?;
    match word {
        "find" => push_finds(&base, session.commands.as_slice(), into),
        "take" => push_takes(alloc, &input.names, &base, input.rules.len(), into),
        "copy" => push_copies(alloc, &input.names, &base, into),
        _ => Err(Stop::NoRow),
    }
}
