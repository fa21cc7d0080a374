//! What the asks of an input say.
ghost use Rattle.mars_scripts.specs.WellFormed.{IsWellFormedInput, IsWellFormedScript, IsWellFormedCommand};
ghost use Rattle.mars_term.specs.Clauses.{IsAsk};

use mars_machine::{Asked, Ending, Stepped};
use mars_print::{print_roots, print_string_body, print_tree};
use mars_read::read_input;
use mars_rules::RuleBase;
use mars_run::Machine;
use mars_script::{Command, Input, Script};
use mars_term::Ask;
use mars_tree::Names;
use rows::{Stop, push_number, push_refusal, unfolded_text};
use std::alloc::Global;

/// A number of steps that each ask may make, and an input: what each ask says, and how it ends.
pub fn answer_input(alloc: Global, rest: &str, into: &mut Vec<u8>) -> Result<(), Stop> {
    match rest.split_once(' ') {
        Some((budget, text)) => match budget.parse() {
            Ok(budget) => answer_text(alloc, budget, text, into),
            Err(_) => Err(Stop::OtherParts),
        },
        None => Err(Stop::OtherParts),
    }
}

fn answer_text(alloc: Global, budget: u64, text: &str, into: &mut Vec<u8>) -> Result<(), Stop> {
    let text = unfolded_text(alloc, text)?;
    match read_input(alloc, text.as_bytes()) {
        Ok(input) => push_sessions(alloc, &input, budget, into),
        Err(error) => push_refusal(error, into),
    }
}

/// Writes what the asks of each session say.
fn push_sessions(alloc: Global, input: &Input, budget: u64, into: &mut Vec<u8>) -> Result<(), Stop>
    requires { IsWellFormedInput input.now }
{
    for script in input.sessions.as_slice() {
        push_script(alloc, input, script, budget, into)?;
    }
    Ok(())
}

/// Writes what the asks of a session say.
fn push_script(
    alloc: Global,
    input: &Input,
    script: &Script,
    budget: u64,
    into: &mut Vec<u8>,
) -> Result<(), Stop>
    requires input { IsWellFormedInput input.now }
    requires script { IsWellFormedScript script.now }
{
    let base = RuleBase::join(
        alloc,
        input.rules.as_slice(),
        script.rules.as_slice(),
        input.version,
    )?;
    for command in script.commands.as_slice() {
        push_command(alloc, &base, &input.names, command, budget, into)?;
    }
    Ok(())
}

/// Writes what a command says, where it is an ask.
fn push_command(
    alloc: Global,
    base: &RuleBase,
    names: &Names,
    command: &Command,
    budget: u64,
    into: &mut Vec<u8>,
) -> Result<(), Stop>
    requires { IsWellFormedCommand command.now }
{
    match command {
        Command::Ask { ask } => {
            let asked = asked_of(alloc, base, ask, budget)?;
            push_asked(names, ask, &asked, into)
        }
        _ => Ok(()),
    }
}

/// The run of an ask that has no kept name.
pub fn asked_of(alloc: Global, base: &RuleBase, ask: &Ask, budget: u64) -> Result<Asked, Stop>
    requires { IsAsk ask.now }
{
    if !ask.kept.as_slice().is_empty() {
        return Err(Stop::OtherParts);
    }
    let mut machine = Machine::start(alloc, base, ask, &[])?;
    Ok(machine.ask(budget, ask.most)?)
}

/// Writes what an ask said and its end, with ` / ` after each but the last.
fn push_asked(names: &Names, ask: &Ask, asked: &Asked, into: &mut Vec<u8>) -> Result<(), Stop> {
    let mut answers: usize = 0;
    for stepped in asked.said.as_slice() {
        if matches!(stepped, Stepped::Answered(_)) {
            answers = answers.saturating_add(1);
        }
        push_saying(names, ask, answers, stepped, into)?;
        into.extend_from_slice(b" / ")?;
    }
    into.extend_from_slice(match asked.ending {
        Ending::End => b"end ",
        Ending::Enough => b"enough ",
        Ending::Stopped => b"stopped ",
    })?;
    push_number(asked.steps as usize, into)?;
    into.extend_from_slice(b"; ")?;
    Ok(())
}

/// Writes one saying.
fn push_saying(
    names: &Names,
    ask: &Ask,
    answers: usize,
    stepped: &Stepped,
    into: &mut Vec<u8>,
) -> Result<(), Stop> {
    match stepped {
        Stepped::Said(canon) => push_out(names, canon, into),
        Stepped::SaidText(text) => {
            into.extend_from_slice(b"outm ")?;
            Ok(print_string_body(names, *text, into)?)
        }
        Stepped::Answered(answer) => {
            into.extend_from_slice(b"answer ")?;
            push_number(answers, into)?;
            into.extend_from_slice(b": ")?;
            if answer.vars != ask.vars.as_slice().len() {
                return Err(Stop::OtherParts);
            }
            Ok(print_roots(
                names,
                &answer.canon,
                ask.vars.as_slice(),
                answer.difs,
                answer.frozen,
                into,
            )?)
        }
        Stepped::Went | Stepped::Ended => Ok(()),
    }
}

/// Writes the tree of a term.
fn push_out(names: &Names, canon: &mars_canon::Canon, into: &mut Vec<u8>) -> Result<(), Stop> {
    if canon.roots().len() != 1 {
        return Err(Stop::OtherParts);
    }
    into.extend_from_slice(b"out ")?;
    Ok(print_tree(names, canon, into)?)
}
