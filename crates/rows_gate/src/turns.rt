//! Rows on sessions that aren't side by side: `turns ORDER : INPUT` has sessions that do an event each, one after the other
//! in this order, as a wrong program might. Each event is a table call, and goes through the gate; with no order nothing does.
ghost use Rattle.std.specs.Prelude.{◌≡◌, ◌<◌, ◌-◌, ◌^◌, length, map, All};
ghost use Rattle.mars_scripts.specs.WellFormed.{IsWellFormedInput};
ghost use Rattle.mars_session.specs.SessionPoints.{session_rules};

use crate::inputs::{USUAL, read_row, rules_of_sessions};
use mars_base::NoMemory;
use mars_io::Gate;
use mars_replay::World;
use mars_rules::RuleBase;
use mars_script::Input;
use rows::Stop;
use std::alloc::Global;
use std::sync::Wait;
use test_gates::{HoldingGate, MeetingGate};

/// How often a gate looks before it says that a session is too late. It would look in vain for ever.
const LOOKS: u64 = 1_000;

/// Appends whether sessions that do an event each, one after the other, come in time for the meeting gate, and for the
/// holding gate.
pub(crate) fn answer_turns<R: Wait>(
    rt: &R,
    alloc: Global,
    rest: &str,
    into: &mut Vec<u8>,
) -> Result<(), Stop> {
    let Some((order, text)) = rest.split_once(':') else {
        return Err(Stop::OtherParts);
    };
    let order = read_order(alloc, order)?;
    let input = read_row(alloc, text.trim(), 1)?;
    let rules = rules_of_sessions(alloc, &input)?;
    push_turns(rt, alloc, &input, &rules, &order, into)
}

/// Numbers with blanks between them.
fn read_order(alloc: Global, text: &str) -> Result<Vec<u32>, Stop> {
    let mut order = Vec::new(alloc);
    for word in text.split_whitespace() {
        match word.parse() {
            Ok(who) => order.push(who)?,
            Err(_) => return Err(Stop::OtherParts),
        }
    }
    Ok(order)
}

/// Appends whether the sessions come in time for each gate.
fn push_turns<R: Wait>(
    rt: &R,
    alloc: Global,
    input: &Input,
    rules: &[RuleBase],
    order: &[u32],
    into: &mut Vec<u8>,
) -> Result<(), Stop>
    requires few { length input.now.sessions < 2 ^ 32 - 2 }
    requires formed { IsWellFormedInput input.now }
    requires rules { rules.now ≡ map (session_rules input.now) input.now.sessions }
{
    let meeting = MeetingGate::with_looks(LOOKS);
    run_in_turn(rt, alloc, input, rules, order, &meeting)?;
    let holding = HoldingGate::with_looks(LOOKS);
    run_in_turn(rt, alloc, input, rules, order, &holding)?;
    let (met, held) = (meeting.in_time(), holding.in_time());
    let text = format!(in alloc; "meeting in time {met}, holding in time {held}")?;
    into.extend_from_slice(text.as_bytes())?;
    Ok(())
}

/// Does an event of each session, one after the other, and takes the first of each for its first table call.
fn run_in_turn<G: Gate, R: Wait>(
    rt: &R,
    alloc: Global,
    input: &Input,
    rules: &[RuleBase],
    order: &[u32],
    gate: &G,
) -> Result<(), NoMemory>
    requires few { length input.now.sessions < 2 ^ 32 - 2 }
    requires formed { IsWellFormedInput input.now }
    requires rules { rules.now ≡ map (session_rules input.now) input.now.sessions }
{
    let mut world = World::new(alloc, input, rules, USUAL)?;
    for who in order {
        if (*who as usize) < input.sessions.len() {
            gate.before(rt, *who, 0);
            let _event = world.event(*who);
            gate.after(rt, *who, 0);
        }
    }
    Ok(())
}
