//! The inputs of rows, and the rules of their sessions.
ghost use Rattle.std.specs.Prelude.{◌≡◌, ◌<◌, ◌-◌, ◌^◌, IfOk, length, map};
ghost use Rattle.mars_scripts.specs.WellFormed.{IsWellFormedInput};
ghost use Rattle.mars_session.specs.SessionPoints.{session_rules};

use mars_base::NoMemory;
use mars_read::{ReadError, read_input};
use mars_rules::RuleBase;
use mars_script::{Input, Options};
use rows::{Stop, unfolded_text};
use std::alloc::Global;

/// How many sessions a row may have.
const MOST_SESSIONS: usize = 32;

/// The options of a program without words.
pub(crate) const USUAL: Options = Options {
    budget: 1_000_000,
    rows: 1_048_576,
    log: false,
};

/// Two numbers, the most steps of an ask and of the table's rows, and what comes after them.
pub(crate) fn read_options(rest: &str) -> Result<(Options, &str), Stop> {
    let (budget, rest) = read_number(rest)?;
    let (rows, rest) = read_number(rest)?;
    let options = Options {
        budget,
        rows,
        log: false,
    };
    Ok((options, rest))
}

/// A number, and what comes after it.
pub(crate) fn read_number(rest: &str) -> Result<(u64, &str), Stop> {
    match rest.split_once(' ') {
        Some((number, rest)) => match number.parse() {
            Ok(number) => Ok((number, rest)),
            Err(_) => Err(Stop::OtherParts),
        },
        None => Err(Stop::OtherParts),
    }
}

/// The input that a row writes.
fn read_text(alloc: Global, text: &[u8]) -> Result<Input, Stop>
    ensures { IfOk result IsWellFormedInput }
{
    match read_input(alloc, text) {
        Ok(input) => Ok(input),
        Err(ReadError::NoMemory) => Err(Stop::NoMemory),
        Err(_) => Err(Stop::Refused),
    }
}

/// The input that a row writes, with its sessions so many times.
fn read_copies(alloc: Global, text: &[u8], count: u64) -> Result<Input, Stop>
    ensures { IfOk result IsWellFormedInput }
{
    let mut input = read_text(alloc, text)?;
    for _ in 1..count {
        let more = read_text(alloc, text)?;
        let Input { sessions, .. } = more;
        input.sessions.append(sessions)?;
    }
    Ok(input)
}

/// The input that a row writes, with its sessions so many times.
pub(crate) fn read_row(alloc: Global, rest: &str, count: u64) -> Result<Input, Stop>
    ensures few { IfOk result (λ input. length input.sessions < 2 ^ 32 - 2) }
    ensures formed { IfOk result IsWellFormedInput }
{
    let text = unfolded_text(alloc, rest)?;
    let input = read_copies(alloc, text.as_bytes(), count)?;
    if input.sessions.len() > MOST_SESSIONS {
        return Err(Stop::TooMany);
    }
    Ok(input)
}

/// The rules of each session: those of the input, and then its own.
pub(crate) fn rules_of_sessions(alloc: Global, input: &Input) -> Result<Vec<RuleBase>, NoMemory>
    requires { IsWellFormedInput input.now }
    ensures { IfOk result (λ rules. rules.items ≡ map (session_rules input.now) input.now.sessions) }
{
    let mut rules = Vec::new(alloc);
    for script in input.sessions.as_slice() {
        let own = script.rules.as_slice();
        rules.push(RuleBase::join(alloc, input.rules.as_slice(), own, input.version)?)?;
    }
    Ok(rules)
}
