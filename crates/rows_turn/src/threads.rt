//! Rows in several threads. `threads COUNT chain` and `threads COUNT pairs` have four callers that put COUNT items each;
//! `keep ITEM` has two callers that put the same item.
ghost use Rattle.std.specs.Prelude.{◌≡◌};
ghost use Rattle.mars_turn.specs.Passes.{turn_id, MayEnter};

use crate::callers::{add_in_two, put};
use crate::closing::{Closed, close, join_in_turn, join_two};
use crate::history::History;
use mars_base::NoMemory;
use mars_turn::{Pass, Turn};
use std::alloc::Global;
use std::sync::Wait;
use std::thread;
use std::thread::Threads;

/// The limit of the histories. It tells that the value comes back with what it had.
const LIMIT: u64 = 77;

/// In which order passes are joined.
#[derive(Clone, Copy)]
pub(crate) enum Shape {
    /// Each into the opening pass, which closes.
    Chain,
    /// Two and two into one, these two into one, and the opening pass into that, which closes.
    Pairs,
}

/// Joins what four callers had into one.
fn join_all(
    turn: &Turn<History>,
    opening: Pass<History>,
    front: (Pass<History>, Pass<History>),
    back: (Pass<History>, Pass<History>),
    shape: Shape,
) -> Pass<History>
    requires opening { MayEnter (turn_id turn.now) opening }
    requires one { MayEnter (turn_id turn.now) front.0 }
    requires two { MayEnter (turn_id turn.now) front.1 }
    requires three { MayEnter (turn_id turn.now) back.0 }
    requires four { MayEnter (turn_id turn.now) back.1 }
    ensures { MayEnter (turn_id turn.now) result }
{
    let (one, two) = front;
    let (three, four) = back;
    match shape {
        Shape::Chain => {
            let all = join_in_turn(turn, opening, one, two);
            join_in_turn(turn, all, three, four)
        }
        Shape::Pairs => {
            let front = join_two(turn, one, two);
            let back = join_two(turn, three, four);
            let all = join_two(turn, front, back);
            join_two(turn, opening, all)
        }
    }
}

/// Four callers, in four threads.
fn add_in_four<R: Threads + Wait + Sync>(
    rt: &R,
    turn: &Turn<History>,
    front: (Pass<History>, Pass<History>),
    back: (Pass<History>, Pass<History>),
    count: u64,
) -> (
    (Pass<History>, Pass<History>),
    (Pass<History>, Pass<History>),
)
    requires one { MayEnter (turn_id turn.now) front.0 }
    requires two { MayEnter (turn_id turn.now) front.1 }
    requires three { MayEnter (turn_id turn.now) back.0 }
    requires four { MayEnter (turn_id turn.now) back.1 }
    ensures one { MayEnter (turn_id turn.now) result.0.0 }
    ensures two { MayEnter (turn_id turn.now) result.0.1 }
    ensures three { MayEnter (turn_id turn.now) result.1.0 }
    ensures four { MayEnter (turn_id turn.now) result.1.1 }
{
    let (one, two) = front;
    let (three, four) = back;
    thread::join(
        rt,
        || -> (Pass<History>, Pass<History>)
            requires { MayEnter (turn_id turn.now) one × MayEnter (turn_id turn.now) two }
            ensures { MayEnter (turn_id turn.entry.now) result.0 × MayEnter (turn_id turn.entry.now) result.1 }
        { add_in_two(rt, turn, one, two, count) },
        || -> (Pass<History>, Pass<History>)
            requires { MayEnter (turn_id turn.now) three × MayEnter (turn_id turn.now) four }
            ensures { MayEnter (turn_id turn.entry.now) result.0 × MayEnter (turn_id turn.entry.now) result.1 }
        { add_in_two(rt, turn, three, four, count) },
    )
}

/// A history that four callers made, in four threads.
pub(crate) fn history_of_four<R: Threads + Wait + Sync>(
    rt: &R,
    alloc: Global,
    count: u64,
    shape: Shape,
) -> Result<Option<Closed>, NoMemory> {
    let (turn, mut opening) = Turn::open(alloc, History::new(alloc, LIMIT))?;
    let one = turn.split(&mut opening);
    let two = turn.split(&mut opening);
    let three = turn.split(&mut opening);
    let four = turn.split(&mut opening);
    let (front, back) = add_in_four(rt, &turn, (one, two), (three, four), count);
    let all = join_all(&turn, opening, front, back, shape);
    Ok(close(turn, all))
}

/// What two callers were told, and the history that they made.
#[derive(Drop)]
pub(crate) struct Told {
    pub(crate) one: Option<usize>,
    pub(crate) two: Option<usize>,
    pub(crate) closed: Closed,
}

/// Puts an item, and gives the pass back with what was told.
fn put_as<R: Wait>(
    rt: &R,
    turn: &Turn<History>,
    pass: Pass<History>,
    item: u64,
) -> (Pass<History>, Option<usize>)
    requires { MayEnter (turn_id turn.now) pass }
    ensures { MayEnter (turn_id turn.now) result.0 }
{
    let mut pass = pass;
    let told = put(rt, turn, &mut pass, item).ok();
    (pass, told)
}

/// Two callers put one item, in two threads; a third pass joins both and closes.
pub(crate) fn keep_by_two<R: Threads + Wait + Sync>(
    rt: &R,
    alloc: Global,
    item: u64,
) -> Result<Option<Told>, NoMemory> {
    let (turn, mut opening) = Turn::open(alloc, History::new(alloc, LIMIT))?;
    let first = turn.split(&mut opening);
    let second = turn.split(&mut opening);
    let ((first, one), (second, two)) = thread::join(
        rt,
        || -> (Pass<History>, Option<usize>)
            requires { MayEnter (turn_id turn) first }
            ensures { MayEnter (turn_id turn) result.0 }
        { put_as(rt, &turn, first, item) },
        || -> (Pass<History>, Option<usize>)
            requires { MayEnter (turn_id turn) second }
            ensures { MayEnter (turn_id turn) result.0 }
        { put_as(rt, &turn, second, item) },
    );
    let all = join_in_turn(&turn, opening, first, second);
    Ok(close(turn, all).map(|closed| Told { one, two, closed }))
}
