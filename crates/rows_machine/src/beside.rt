//! Random programs on both machines.
ghost use Rattle.mars_scripts.specs.WellFormed.{IsWellFormedInput, IsWellFormedScript, IsWellFormedCommand};
ghost use Rattle.mars_term.specs.Clauses.{IsAsk};

use crate::asked::asked_of;
use crate::drawn::drawn_text;
use crate::plain::{PlainEnd, PlainMachine, PlainRule, PlainSaid, plain_ask, plain_rules};
use crate::tally::Tally;
use mars_machine::{Asked, Ending, Stepped};
use mars_read::read_input;
use mars_rules::RuleBase;
use mars_script::{Command, Input, Script};
use mars_term::Ask;
use rows::{Draw, Stop, push_number, read_numbers};
use std::alloc::Global;

/// At most so many steps are made of each program.
const BUDGET: u64 = 200;

/// A seed and a count: so many random programs, each on both machines. The first one on which they differ is written, with
/// its text.
pub fn answer_random(alloc: Global, rest: &str, into: &mut Vec<u8>) -> Result<(), Stop> {
    let numbers = read_numbers(alloc, rest)?;
    match (numbers.get(0), numbers.get(1)) {
        (Some(seed), Some(count)) => run_all(alloc, *seed as u64, *count, into),
        _ => Err(Stop::OtherParts),
    }
}

/// Runs so many programs.
fn run_all(alloc: Global, seed: u64, count: usize, into: &mut Vec<u8>) -> Result<(), Stop> {
    let mut draw = Draw::new(seed);
    let mut tally = Tally::new();
    for _ in 0..count {
        let text = drawn_text(alloc, &mut draw)?;
        if !run_one(alloc, &text, &mut tally)? {
            push_number(tally.runs, into)?;
            into.extend_from_slice(b" runs alike, but not that of ")?;
            into.extend_from_slice(&text)?;
            return Ok(());
        }
    }
    Ok(tally.push(into)?)
}

/// Runs one program on both machines: whether they say the same.
fn run_one(alloc: Global, text: &[u8], tally: &mut Tally) -> Result<bool, Stop> {
    match read_input(alloc, text) {
        Ok(input) => run_input(alloc, &input, tally),
        Err(_) => Err(Stop::Refused),
    }
}

/// Runs the asks of an input.
fn run_input(alloc: Global, input: &Input, tally: &mut Tally) -> Result<bool, Stop>
    requires { IsWellFormedInput input.now }
{
    let base = RuleBase::new(alloc, input.rules.as_slice())?;
    let plain = plain_rules(alloc, input.rules.as_slice())?;
    for script in input.sessions.as_slice() {
        if !run_script(alloc, &base, &plain, script, tally)? {
            return Ok(false);
        }
    }
    Ok(true)
}

/// Runs the asks of a session.
fn run_script(
    alloc: Global,
    base: &RuleBase,
    plain: &[PlainRule],
    script: &Script,
    tally: &mut Tally,
) -> Result<bool, Stop>
    requires { IsWellFormedScript script.now }
{
    for command in script.commands.as_slice() {
        if !run_command(alloc, base, plain, command, tally)? {
            return Ok(false);
        }
    }
    Ok(true)
}

/// Runs a command, where it is an ask.
fn run_command(
    alloc: Global,
    base: &RuleBase,
    plain: &[PlainRule],
    command: &Command,
    tally: &mut Tally,
) -> Result<bool, Stop>
    requires { IsWellFormedCommand command.now }
{
    match command {
        Command::Ask { ask } => run_ask(alloc, base, plain, ask, tally),
        _ => Ok(true),
    }
}

/// Runs an ask without kept names.
fn run_ask(
    alloc: Global,
    base: &RuleBase,
    plain: &[PlainRule],
    ask: &Ask,
    tally: &mut Tally,
) -> Result<bool, Stop>
    requires { IsAsk ask.now }
{
    let goals = plain_ask(alloc, ask)?;
    let mut other = PlainMachine::start(alloc, &goals, count_of(ask)?)?;
    let end = other.run(alloc, plain, BUDGET, ask.most)?;
    let asked = asked_of(alloc, base, ask, BUDGET)?;
    count(&asked, tally);
    Ok(
        asked.steps == other.steps
            && is_end(asked.ending, end)
            && are_alike(asked.said.as_slice(), &other.said),
    )
}

/// How many variables an ask has.
fn count_of(ask: &Ask) -> Result<u32, Stop> {
    match u32::try_from(ask.vars.as_slice().len()) {
        Ok(count) => Ok(count),
        Err(_) => Err(Stop::TooMany),
    }
}

/// Whether both runs ended in the same way.
fn is_end(ending: Ending, end: PlainEnd) -> bool {
    match (ending, end) {
        (Ending::End, PlainEnd::End) => true,
        (Ending::Enough, PlainEnd::Enough) => true,
        (Ending::Stopped, PlainEnd::Stopped) => true,
        _ => false,
    }
}

/// Whether both said the same.
fn are_alike(said: &[Stepped], other: &[PlainSaid]) -> bool {
    if said.len() != other.len() {
        return false;
    }
    for (stepped, plain) in said.iter().zip(other) {
        if !is_alike(stepped, plain) {
            return false;
        }
    }
    true
}

/// Whether one saying is the other.
fn is_alike(stepped: &Stepped, plain: &PlainSaid) -> bool {
    match (stepped, plain) {
        (Stepped::Said(canon), PlainSaid::Tree(tree)) => canon == tree,
        (Stepped::Answered(answer), PlainSaid::Answer(other)) => {
            answer.canon == other.canon
                && answer.difs == other.difs
                && answer.frozen == other.frozen
        }
        _ => false,
    }
}

/// Counts what a run had.
fn count(asked: &Asked, tally: &mut Tally) {
    tally.runs = tally.runs.saturating_add(1);
    tally.steps = tally.steps.saturating_add(asked.steps as usize);
    match asked.ending {
        Ending::Stopped => tally.stopped = tally.stopped.saturating_add(1),
        _ => tally.ended = tally.ended.saturating_add(1),
    }
    for stepped in asked.said.as_slice() {
        count_saying(stepped, tally);
    }
}

/// Counts a saying.
fn count_saying(stepped: &Stepped, tally: &mut Tally) {
    match stepped {
        Stepped::Answered(answer) => {
            tally.answers = tally.answers.saturating_add(1);
            tally.open = tally.open.saturating_add(answer.difs);
            tally.frozen = tally.frozen.saturating_add(answer.frozen);
        }
        Stepped::Said(_) => tally.trees = tally.trees.saturating_add(1),
        _ => {}
    }
}
