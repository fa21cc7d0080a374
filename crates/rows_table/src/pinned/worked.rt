//! Calls that are written in a row: `calls LIMIT CALL .. : TREE | TREE ..`. Each `add` and `find` takes the next tree, and
//! an `add` is followed by a pin; `drop0`, `pin0` and `show0` are on number 0; `sweep` and `count` take nothing.
use crate::pinned::called::{add, counts, find, pin, sweep, tree_of, unpin};
use crate::plain::PlainReply;
use mars_base::NoMemory;
use mars_canon::Tree;
use mars_rows::Rows;
use mars_tree::Names;
use rows::{Operand, Operands, Stop, canon_of, push_text, read_operands};
use std::alloc::Global;

/// The caller of each call.
const WHO: u32 = 0;

/// The rows, and the trees of the calls that are left.
#[derive(Drop)]
struct Running {
    rows: Rows,
    trees: Vec<Tree>,
    taken: usize,
    cap: u64,
}

/// The tree of an operand.
fn tree_from(alloc: Global, operand: &Operand) -> Result<Tree, Stop> {
    let canon = canon_of(alloc, &operand.graph, &operand.roots)?;
    match Tree::of(alloc, &canon)? {
        Some(tree) => Ok(tree),
        None => Err(Stop::NoTree),
    }
}

/// The trees of operands.
fn trees_from(alloc: Global, operands: &[Operand]) -> Result<Vec<Tree>, Stop> {
    let mut trees = Vec::new(alloc);
    for operand in operands {
        trees.push(tree_from(alloc, operand)?)?;
    }
    Ok(trees)
}

/// Writes what a call answers.
fn push_reply(reply: PlainReply, cap: u64, into: &mut Vec<u8>) -> Result<(), NoMemory> {
    let alloc = *into.allocator();
    let text = match reply {
        PlainReply::Root(number) => format!(in alloc; "kept #{number}")?,
        PlainReply::Full { rows, fresh } => format!(in alloc; "full {rows} + {fresh} > {cap}")?,
        PlainReply::Found(Some(number)) => format!(in alloc; "found #{number}")?,
        PlainReply::Found(None) => format!(in alloc; "not found")?,
        PlainReply::Pinned(true) => format!(in alloc; "pinned")?,
        PlainReply::Pinned(false) => format!(in alloc; "no row")?,
        PlainReply::Unpinned(true) => format!(in alloc; "dropped")?,
        PlainReply::Unpinned(false) => format!(in alloc; "no pin")?,
        PlainReply::Swept(count) => format!(in alloc; "swept {count}")?,
        PlainReply::Counted(rows, pins, _) => format!(in alloc; "rows {rows}, pins {pins}")?,
        PlainReply::Ended => format!(in alloc; "no more numbers")?,
    };
    into.extend_from_slice(text.as_bytes())?;
    Ok(())
}

/// Adds the next tree, with a pin on its root.
fn add_next(running: &mut Running) -> Result<PlainReply, Stop> {
    let place = running.taken;
    running.taken = place.wrapping_add(1);
    if place >= running.trees.len() {
        return Err(Stop::OtherParts);
    }
    let reply = add(&mut running.rows, &running.trees[place])?;
    if let PlainReply::Root(number) = reply {
        let _ = pin(&mut running.rows, WHO, number)?;
    }
    Ok(reply)
}

/// Finds the next tree.
fn find_next(running: &mut Running) -> Result<PlainReply, Stop> {
    let place = running.taken;
    running.taken = place.wrapping_add(1);
    if place >= running.trees.len() {
        return Err(Stop::OtherParts);
    }
    Ok(find(&running.rows, &running.trees[place], 0)?)
}

/// The number that follows the name of a call.
fn number_after(call: &str, name: &str) -> Option<u128> {
    match call.strip_prefix(name) {
        Some(digits) => match digits.parse::<u64>() {
            Ok(number) => Some(u128::from(number)),
            Err(_) => None,
        },
        None => None,
    }
}

/// Writes the tree of a row.
fn push_shown(rows: &Rows, names: &Names, number: u128, into: &mut Vec<u8>) -> Result<(), Stop> {
    match tree_of(rows, number)? {
        Some(tree) => {
            let canon = tree.canon()?;
            push_text(names, &canon, into)
        }
        None => Ok(into.extend_from_slice(b"no row")?),
    }
}

/// What a call on a number answers.
fn called_with_number(running: &mut Running, call: &str) -> Result<PlainReply, Stop> {
    if let Some(number) = number_after(call, "drop") {
        return Ok(unpin(&mut running.rows, WHO, number));
    }
    match number_after(call, "pin") {
        Some(number) => Ok(pin(&mut running.rows, WHO, number)?),
        None => Err(Stop::OtherParts),
    }
}

/// What a call answers.
fn called(running: &mut Running, call: &str) -> Result<PlainReply, Stop> {
    match call {
        "add" => add_next(running),
        "find" => find_next(running),
        "sweep" => Ok(sweep(&mut running.rows)?),
        "count" => Ok(counts(&running.rows)),
        _ => called_with_number(running, call),
    }
}

/// Writes the answer of a call.
fn push_call(
    running: &mut Running,
    names: &Names,
    call: &str,
    into: &mut Vec<u8>,
) -> Result<(), Stop> {
    if let Some(number) = number_after(call, "show") {
        return push_shown(&running.rows, names, number, into);
    }
    let reply = called(running, call)?;
    Ok(push_reply(reply, running.cap, into)?)
}

/// Writes the answers of calls.
fn push_calls(
    running: &mut Running,
    names: &Names,
    calls: &str,
    into: &mut Vec<u8>,
) -> Result<(), Stop> {
    for (place, call) in calls.split(' ').enumerate() {
        if place > 0 {
            into.extend_from_slice(b" / ")?;
        }
        push_call(running, names, call, into)?;
    }
    Ok(())
}

/// Answers calls that are written, on the trees that are read.
fn answer_with(
    alloc: Global,
    cap: u64,
    calls: &str,
    operands: &Operands,
    into: &mut Vec<u8>,
) -> Result<(), Stop> {
    let mut running = Running {
        rows: Rows::new(alloc, cap),
        trees: trees_from(alloc, &operands.all)?,
        taken: 0,
        cap,
    };
    push_calls(&mut running, &operands.names, calls, into)
}

/// Answers a row of calls.
pub fn answer_calls(alloc: Global, rest: &str, into: &mut Vec<u8>) -> Result<(), Stop> {
    let Some((calls, trees)) = rest.split_once(" : ") else {
        return Err(Stop::OtherParts);
    };
    let Some((cap, calls)) = calls.split_once(' ') else {
        return Err(Stop::OtherParts);
    };
    let Ok(cap) = cap.parse::<u64>() else {
        return Err(Stop::OtherParts);
    };
    let operands = read_operands(alloc, trees)?;
    answer_with(alloc, cap, calls, &operands, into)
}
