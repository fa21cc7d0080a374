//! Passes that were in threads are joined, in one shape or another, and the turn is closed.
ghost use Rattle.std.specs.Prelude.{◌≡◌};
ghost use Rattle.mars_turn.specs.Passes.{turn_id, turn_of, MayEnter};

use crate::history::History;
use mars_turn::{Pass, Turn};

/// What is left of a turn.
#[derive(Drop)]
pub(crate) struct Closed {
    pub(crate) history: History,
    /// The number of the pass that closed it.
    pub(crate) by: u32,
}

/// Closes a turn, where all passes were joined into this one.
pub(crate) fn close(turn: Turn<History>, pass: Pass<History>) -> Option<Closed>
    requires { turn_of pass ≡ turn_id turn }
{
    if !pass.complete() {
        return None;
    }
    let by = pass.number();
    let history = turn.close(pass);
    Some(Closed { history, by })
}

/// Joins two passes into the opening one, in turn.
pub(crate) fn join_in_turn(
    turn: &Turn<History>,
    opening: Pass<History>,
    one: Pass<History>,
    two: Pass<History>,
) -> Pass<History>
    requires opening { MayEnter (turn_id turn.now) opening }
    requires one { MayEnter (turn_id turn.now) one }
    requires two { MayEnter (turn_id turn.now) two }
    ensures { MayEnter (turn_id turn.now) result }
{
    let all = turn.join(one, opening);
    turn.join(two, all)
}

/// Joins two passes into one.
pub(crate) fn join_two(
    turn: &Turn<History>,
    one: Pass<History>,
    two: Pass<History>,
) -> Pass<History>
    requires one { MayEnter (turn_id turn.now) one }
    requires two { MayEnter (turn_id turn.now) two }
    ensures { MayEnter (turn_id turn.now) result }
{
    turn.join(one, two)
}
