//! Rows on sessions: `sessions STEPS ROWS INPUT` has what the sessions write on one thread, and whether they write the same
//! in threads; `meeting INPUT` and `holding INPUT` have two sessions at these gates.
ghost use Rattle.std.specs.Prelude.{◌≡◌, ◌<◌, ◌-◌, ◌^◌, length, map};
ghost use Rattle.mars_scripts.specs.WellFormed.{IsWellFormedInput};
ghost use Rattle.mars_session.specs.SessionPoints.{session_rules};

use crate::inputs::{USUAL, read_options, read_row, rules_of_sessions};
use mars_base::NoMemory;
use mars_gate::run_sessions;
use mars_io::{Gate, OpenGate};
use mars_replay::World;
use mars_rules::RuleBase;
use mars_script::{Input, Options};
use mars_session::Ran;
use rows::Stop;
use std::alloc::Global;
use std::sync::Wait;
use std::thread::Threads;
use test_gates::{HoldingGate, MeetingGate, UnevenGate};

/// How many uneven gates a row is tried under.
const SEEDS: u64 = 4;

/// Appends what the sessions of an input write on one thread, and whether they write the same in threads.
pub(crate) fn answer_sessions<R: Threads + Wait + Sync>(
    rt: &R,
    alloc: Global,
    rest: &str,
    into: &mut Vec<u8>,
) -> Result<(), Stop> {
    let (options, text) = read_options(rest)?;
    let input = read_row(alloc, text, 1)?;
    let rules = rules_of_sessions(alloc, &input)?;
    push_same(rt, alloc, &input, &rules, options, into)
}

/// Appends the text of the sessions on one thread, and whether it is the same in threads.
fn push_same<R: Threads + Wait + Sync>(
    rt: &R,
    alloc: Global,
    input: &Input,
    rules: &[RuleBase],
    options: Options,
    into: &mut Vec<u8>,
) -> Result<(), Stop>
    requires few { length input.now.sessions < 2 ^ 32 - 2 }
    requires formed { IsWellFormedInput input.now }
    requires rules { rules.now ≡ map (session_rules input.now) input.now.sessions }
{
    let alone = World::new(alloc, input, rules, options)?.run(&[])?;
    push_lines(&alone.text, into)?;
    let same = is_same_in_threads(rt, alloc, input, rules, options, &alone)?;
    into.extend_from_slice(if same {
        b"; in threads the same"
    } else {
        b"; in threads otherwise"
    })?;
    Ok(())
}

/// Whether the sessions write the same in threads, under an open gate and under uneven ones.
fn is_same_in_threads<R: Threads + Wait + Sync>(
    rt: &R,
    alloc: Global,
    input: &Input,
    rules: &[RuleBase],
    options: Options,
    alone: &Ran,
) -> Result<bool, NoMemory>
    requires few { length input.now.sessions < 2 ^ 32 - 2 }
    requires formed { IsWellFormedInput input.now }
    requires rules { rules.now ≡ map (session_rules input.now) input.now.sessions }
{
    let mut same = is_same_under(rt, alloc, input, rules, options, &OpenGate, alone)?;
    for seed in 0..SEEDS {
        let gate = UnevenGate { seed };
        let again = is_same_under(rt, alloc, input, rules, options, &gate, alone)?;
        same = same && again;
    }
    Ok(same)
}

/// Whether the sessions write the same in threads under a gate.
fn is_same_under<G: Gate, R: Threads + Wait + Sync>(
    rt: &R,
    alloc: Global,
    input: &Input,
    rules: &[RuleBase],
    options: Options,
    gate: &G,
    alone: &Ran,
) -> Result<bool, NoMemory>
    requires few { length input.now.sessions < 2 ^ 32 - 2 }
    requires formed { IsWellFormedInput input.now }
    requires rules { rules.now ≡ map (session_rules input.now) input.now.sessions }
{
    let ran = run_sessions(rt, alloc, input, rules, options, gate)?;
    Ok(is_same(&ran, alone))
}

/// Whether two runs have one text, and as many entries.
fn is_same(one: &Ran, other: &Ran) -> bool {
    one.text == other.text && one.cut == other.cut && one.history.len() == other.history.len()
}

/// Appends whether two sessions that meet come in time, and the last line.
pub(crate) fn answer_meeting<R: Threads + Wait + Sync>(
    rt: &R,
    alloc: Global,
    rest: &str,
    into: &mut Vec<u8>,
) -> Result<(), Stop> {
    let input = read_row(alloc, rest, 1)?;
    let rules = rules_of_sessions(alloc, &input)?;
    let gate = MeetingGate::new();
    let ran = run_sessions(rt, alloc, &input, &rules, USUAL, &gate)?;
    push_in_time(gate.in_time(), into)?;
    push_lines(last_line(&ran.text), into)
}

/// Appends whether a session is held in time, and what the sessions write.
pub(crate) fn answer_holding<R: Threads + Wait + Sync>(
    rt: &R,
    alloc: Global,
    rest: &str,
    into: &mut Vec<u8>,
) -> Result<(), Stop> {
    let input = read_row(alloc, rest, 1)?;
    let rules = rules_of_sessions(alloc, &input)?;
    let gate = HoldingGate::new();
    let ran = run_sessions(rt, alloc, &input, &rules, USUAL, &gate)?;
    push_in_time(gate.in_time(), into)?;
    push_lines(&ran.text, into)
}

/// Appends whether each session came to its gate, and none waited too long.
fn push_in_time(in_time: bool, into: &mut Vec<u8>) -> Result<(), Stop> {
    into.extend_from_slice(if in_time { b"in time: " } else { b"too late: " })?;
    Ok(())
}

/// The last line of a text, with its line feed.
pub(crate) fn last_line(text: &[u8]) -> &[u8] {
    match text.split_last() {
        Some((_, lines)) => match lines.rsplit(|byte| *byte == b'\n').next() {
            Some(line) => line,
            None => text,
        },
        None => text,
    }
}

/// Appends the lines of a text, with ` / ` between them.
pub(crate) fn push_lines(text: &[u8], into: &mut Vec<u8>) -> Result<(), Stop> {
    let lines = text.strip_suffix(b"\n").unwrap_or(text);
    for byte in lines {
        if *byte == b'\n' {
            into.extend_from_slice(b" / ")?;
        } else {
            into.push(*byte)?;
        }
    }
    Ok(())
}
