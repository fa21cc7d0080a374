//! Callers that put items into a history with a turn, each with a pass of its own.
ghost use Rattle.std.specs.Prelude.{◌≡◌};
ghost use Rattle.mars_turn.specs.Passes.{turn_id, MayEnter};

use crate::history::History;
use mars_base::NoMemory;
use mars_turn::{Pass, Turn};
use std::sync::Wait;
use std::thread;
use std::thread::Threads;

/// Puts an item, and tells where the first entry with this item is.
pub(crate) fn put<R: Wait>(
    rt: &R,
    turn: &Turn<History>,
    pass: &mut Pass<History>,
    item: u64,
) -> Result<usize, NoMemory>
    requires { MayEnter (turn_id turn.now) pass.old }
    ensures { MayEnter (turn_id turn.now) pass.new }
{
    let who = pass.number();
    let mut history = turn.enter(rt, pass);
    let place = history.place_of(item);
    let appended = history.append(who, item);
    turn.leave(pass, history);
    appended?;
    Ok(place)
}

/// Puts an item without looking for it.
pub(crate) fn add<R: Wait>(
    rt: &R,
    turn: &Turn<History>,
    pass: &mut Pass<History>,
    item: u64,
) -> Result<(), NoMemory>
    requires { MayEnter (turn_id turn.now) pass.old }
    ensures { MayEnter (turn_id turn.now) pass.new }
{
    let who = pass.number();
    let mut history = turn.enter(rt, pass);
    let appended = history.append(who, item);
    turn.leave(pass, history);
    appended
}

/// Puts the numbers below the count, each with a turn of its own. It stops where it is out of memory.
pub(crate) fn add_all<R: Wait>(
    rt: &R,
    turn: &Turn<History>,
    pass: Pass<History>,
    count: u64,
) -> Pass<History>
    requires { MayEnter (turn_id turn.now) pass }
    ensures { MayEnter (turn_id turn.now) result }
{
    let mut pass = pass;
    for item in 0..count {
        if add(rt, turn, &mut pass, item).is_err() {
            break;
        }
    }
    pass
}

/// Two callers, in two threads.
pub(crate) fn add_in_two<R: Threads + Wait + Sync>(
    rt: &R,
    turn: &Turn<History>,
    one: Pass<History>,
    two: Pass<History>,
    count: u64,
) -> (Pass<History>, Pass<History>)
    requires one { MayEnter (turn_id turn.now) one }
    requires two { MayEnter (turn_id turn.now) two }
    ensures one { MayEnter (turn_id turn.now) result.0 }
    ensures two { MayEnter (turn_id turn.now) result.1 }
{
    thread::join(
        rt,
        || -> Pass<History>
            requires { MayEnter (turn_id turn.now) one }
            ensures { MayEnter (turn_id turn.entry.now) result }
        { add_all(rt, turn, one, count) },
        || -> Pass<History>
            requires { MayEnter (turn_id turn.now) two }
            ensures { MayEnter (turn_id turn.entry.now) result }
        { add_all(rt, turn, two, count) },
    )
}
