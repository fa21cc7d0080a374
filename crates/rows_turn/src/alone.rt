//! Rows on one thread. `order 1 2 1` has the passes with these numbers put an item each, in this order; an item is its
//! place in the row. `complete` tells when a pass is complete.
ghost use Rattle.std.specs.Prelude.{◌≡◌};
ghost use Rattle.mars_turn.specs.Passes.{turn_id, MayEnter};

use crate::callers::add;
use crate::closing::{Closed, close, join_in_turn};
use crate::history::History;
use mars_base::NoMemory;
use mars_turn::{Pass, Turn};
use std::alloc::Global;
use std::sync::Wait;

/// The limit of the histories.
const LIMIT: u64 = 9;

/// The pass that a word names puts an item: pass 1, pass 2, or else the opening pass.
fn add_by<R: Wait>(
    rt: &R,
    turn: &Turn<History>,
    opening: &mut Pass<History>,
    one: &mut Pass<History>,
    two: &mut Pass<History>,
    word: &str,
    item: u64,
) -> Result<(), NoMemory>
    requires opening { MayEnter (turn_id turn.now) opening.old }
    requires one { MayEnter (turn_id turn.now) one.old }
    requires two { MayEnter (turn_id turn.now) two.old }
    ensures opening { MayEnter (turn_id turn.now) opening.new }
    ensures one { MayEnter (turn_id turn.now) one.new }
    ensures two { MayEnter (turn_id turn.now) two.new }
{
    match word {
        "1" => add(rt, turn, one, item),
        "2" => add(rt, turn, two, item),
        _ => add(rt, turn, opening, item),
    }
}

/// The history that the opening pass and two others make in the order of the words.
pub(crate) fn history_in_order<R: Wait>(
    rt: &R,
    alloc: Global,
    words: &str,
) -> Result<Option<Closed>, NoMemory> {
    let (turn, mut opening) = Turn::open(alloc, History::new(alloc, LIMIT))?;
    let mut one = turn.split(&mut opening);
    let mut two = turn.split(&mut opening);
    let mut item = 0_u64;
    for word in words.split(' ') {
        add_by(rt, &turn, &mut opening, &mut one, &mut two, word, item)?;
        item = item.saturating_add(1);
    }
    let all = join_in_turn(&turn, opening, one, two);
    Ok(close(turn, all))
}

/// When a pass is complete.
#[derive(Clone, Copy)]
pub(crate) struct Stages {
    /// The opening pass, as long as no other was made.
    pub(crate) alone: bool,
    /// The same, while it is inside.
    pub(crate) inside: bool,
    /// The opening pass, with another.
    pub(crate) with_another: bool,
    /// The other.
    pub(crate) other: bool,
    /// The other, once the opening pass was joined into it.
    pub(crate) joined: bool,
    /// Its number then.
    pub(crate) number: u32,
}

/// Tells it step by step.
pub(crate) fn tell_stages<R: Wait>(rt: &R, alloc: Global) -> Result<Stages, NoMemory> {
    let (turn, mut opening) = Turn::open(alloc, History::new(alloc, LIMIT))?;
    let alone = opening.complete();
    let history = turn.enter(rt, &mut opening);
    let inside = opening.complete();
    turn.leave(&mut opening, history);
    let another = turn.split(&mut opening);
    let with_another = opening.complete();
    let other = another.complete();
    let all = turn.join(opening, another);
    Ok(Stages {
        alone,
        inside,
        with_another,
        other,
        joined: all.complete(),
        number: all.number(),
    })
}
