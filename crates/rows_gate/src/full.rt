//! Rows on a full table: `full INPUT` has what the first session of an input writes over a table without room for a row.
ghost use Rattle.std.specs.Prelude.{◌≡◌, ◌<◌, ◌-◌, ◌^◌, [], IfOk, length, map};
ghost use Rattle.mars_scripts.specs.WellFormed.{IsWellFormedInput};
ghost use Rattle.mars_session.specs.DoorEvents.{IsAtDoor};
ghost use Rattle.mars_session.specs.SessionPoints.{session_rules};

use crate::inputs::{USUAL, read_row, rules_of_sessions};
use crate::sessions::push_lines;
use mars_base::NoMemory;
use mars_rules::RuleBase;
use mars_script::Input;
use mars_session::{Event, Session, event};
use mars_table::{Door, FullDoor};
use rows::Stop;
use std::alloc::Global;

/// More events than the session of a row has.
const EVENTS: u32 = 1_000;

/// Appends what the first session of an input writes over a full table.
pub(crate) fn answer_full(alloc: Global, rest: &str, into: &mut Vec<u8>) -> Result<(), Stop> {
    let input = read_row(alloc, rest, 1)?;
    let rules = rules_of_sessions(alloc, &input)?;
    if input.sessions.len() == 0 {
        return Err(Stop::OtherParts);
    }
    push_full(alloc, &input, &rules, into)
}

/// Appends what the first session writes.
fn push_full(
    alloc: Global,
    input: &Input,
    rules: &[RuleBase],
    into: &mut Vec<u8>,
) -> Result<(), Stop>
    requires some { 0 < length input.now.sessions }
    requires formed { IsWellFormedInput input.now }
    requires rules { rules.now ≡ map (session_rules input.now) input.now.sessions }
{
    let mut session = first_session(alloc, input, rules)?;
    let mut door = FullDoor::new(alloc, 0);
    run_over(&mut session, &mut door);
    push_lines(session.text(), into)
}

/// The first session, at its start.
fn first_session<'r>(
    alloc: Global,
    input: &'r Input,
    rules: &'r [RuleBase],
) -> Result<Session<'r>, NoMemory>
    requires some { 0 < length input.now.sessions }
    requires formed { IsWellFormedInput input.now }
    requires rules { rules.now ≡ map (session_rules input.now) input.now.sessions }
    ensures number { IfOk result (λ s. s.part.who ≡ 0) }
    ensures none { IfOk result (λ s. s.point.mine ≡ []) }
{
    Session::new(alloc, 0, input, &rules[0], USUAL)
}

/// One event over a door, of a session that stays at it.
fn one_event<D: Door>(session: &mut Session, door: &mut D) -> Event
    requires number { D.who door.old ≡ session.old.part.who }
    requires at { IsAtDoor session.old (D.mine door.old) }
    ensures number { D.who door.new ≡ session.new.part.who }
    ensures at { IsAtDoor session.new (D.mine door.new) }
{
    event(session, door)
}

/// Events of a session over a door, to its end.
fn run_over<D: Door>(session: &mut Session, door: &mut D)
    requires number { D.who door.old ≡ session.old.part.who }
    requires at { IsAtDoor session.old (D.mine door.old) }
{
    for _ in 0..EVENTS {
        if matches!(one_event(session, door), Event::Done) {
            return;
        }
    }
}
