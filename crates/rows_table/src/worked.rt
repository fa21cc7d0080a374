//! Calls that are written in a row: `calls LIMIT CALL .. : TREE | TREE ..`, `lent` in the same form through a door that is
//! lent for each call, and `full CALL .. : TREE | TREE ..` through a full door. Each `intern` takes the next tree; `pin0`,
//! `show0` and `drop0` are on number 0; `sweep` and `count` take nothing. A call of another caller than 0 has its number in
//! front, as `1:sweep`.
use crate::called::{call_applied, call_full, call_lent};
use mars_base::NoMemory;
use mars_canon::Tree;
use mars_table::{Call, FullDoor, Handle, Reply, Table};
use mars_tree::Names;
use rows::{Operand, Operands, Stop, canon_of, push_text, read_operands};
use std::alloc::Global;

/// What the calls are made on.
#[derive(Drop)]
enum Served {
    /// A table, by `apply`.
    Applied(Table),
    /// A table, through a door for each call.
    Lent(Table),
    /// A door without a row, of caller 0.
    Full(FullDoor),
}

/// What the calls are made on, and the trees of those that are left.
#[derive(Drop)]
struct Running {
    served: Served,
    trees: Vec<Tree>,
    taken: usize,
}

/// The tree of an operand.
fn tree_from(alloc: Global, operand: &Operand) -> Result<Tree, Stop> {
    let canon = canon_of(alloc, &operand.graph, &operand.roots)?;
    match Tree::of(alloc, &canon)? {
        Some(tree) => Ok(tree),
        None => Err(Stop::NoTree),
    }
}

/// The trees of operands.
fn trees_from(alloc: Global, operands: &[Operand]) -> Result<Vec<Tree>, Stop> {
    let mut trees = Vec::new(alloc);
    for operand in operands {
        trees.push(tree_from(alloc, operand)?)?;
    }
    Ok(trees)
}

/// The tree at a place.
fn tree_at(trees: &[Tree], place: usize) -> Result<Tree, Stop> {
    match trees.get(place) {
        Some(tree) => Ok(tree.copy()?),
        None => Err(Stop::OtherParts),
    }
}

/// The number that follows the name of a call.
fn handle_after(call: &str, name: &str) -> Option<Handle> {
    match call.strip_prefix(name) {
        Some(digits) => match digits.parse::<u64>() {
            Ok(number) => Some(Handle(u128::from(number))),
            Err(_) => None,
        },
        None => None,
    }
}

/// The call on a number that is written.
fn call_on_number(text: &str) -> Result<Call, Stop> {
    if let Some(handle) = handle_after(text, "pin") {
        return Ok(Call::Pin(handle));
    }
    if let Some(handle) = handle_after(text, "show") {
        return Ok(Call::Show(handle));
    }
    match handle_after(text, "drop") {
        Some(handle) => Ok(Call::Drop(handle)),
        None => Err(Stop::OtherParts),
    }
}

/// The call that interns the next tree.
fn call_on_tree(running: &mut Running) -> Result<Call, Stop> {
    let place = running.taken;
    running.taken = place.wrapping_add(1);
    Ok(Call::Intern(tree_at(&running.trees, place)?))
}

/// The call that is written.
fn call_from(running: &mut Running, text: &str) -> Result<Call, Stop> {
    match text {
        "intern" => call_on_tree(running),
        "sweep" => Ok(Call::Sweep),
        "count" => Ok(Call::Count),
        _ => call_on_number(text),
    }
}

/// The caller that is written before a call, and the call.
fn split_caller(text: &str) -> Result<(u32, &str), Stop> {
    match text.split_once(':') {
        Some((who, call)) => match who.parse::<u32>() {
            Ok(who) => Ok((who, call)),
            Err(_) => Err(Stop::OtherParts),
        },
        None => Ok((0, text)),
    }
}

/// Makes a call, where its caller may make it.
fn make_call(served: &mut Served, who: u32, call: Call) -> Result<Option<Reply>, NoMemory> {
    match served {
        Served::Applied(table) => call_applied(table, who, call),
        Served::Lent(table) => call_lent(table, who, call),
        Served::Full(door) => call_full(door, call),
    }
}

/// Writes a tree that is shown.
fn push_shown(tree: &Tree, names: &Names, into: &mut Vec<u8>) -> Result<(), Stop> {
    let canon = tree.canon()?;
    into.extend_from_slice(b"shown ")?;
    push_text(names, &canon, into)
}

/// Writes a reply that has numbers alone.
fn push_numbers_of(reply: &Reply, into: &mut Vec<u8>) -> Result<(), Stop> {
    let alloc = *into.allocator();
    let text = match reply {
        Reply::Kept(Handle(number)) => format!(in alloc; "kept #{number}")?,
        Reply::Full { rows, fresh, cap } => format!(in alloc; "full {rows} + {fresh} > {cap}")?,
        Reply::Pinned => format!(in alloc; "pinned")?,
        Reply::Shown(_) => format!(in alloc; "shown")?,
        Reply::Dropped => format!(in alloc; "dropped")?,
        Reply::Swept(count) => format!(in alloc; "swept {count}")?,
        Reply::Counted { rows, pins } => format!(in alloc; "rows {rows}, pins {pins}")?,
    };
    into.extend_from_slice(text.as_bytes())?;
    Ok(())
}

/// Writes a reply, or that the caller has no pin.
fn push_reply(reply: &Option<Reply>, names: &Names, into: &mut Vec<u8>) -> Result<(), Stop> {
    match reply {
        Some(Reply::Shown(tree)) => push_shown(tree, names, into),
        Some(reply) => push_numbers_of(reply, into),
        None => Ok(into.extend_from_slice(b"no pin")?),
    }
}

/// Makes the call that is written, and writes its reply.
fn push_call(
    running: &mut Running,
    names: &Names,
    text: &str,
    into: &mut Vec<u8>,
) -> Result<(), Stop> {
    let (who, text) = split_caller(text)?;
    let call = call_from(running, text)?;
    let reply = make_call(&mut running.served, who, call)?;
    push_reply(&reply, names, into)
}

/// Makes the calls that are written, and writes their replies.
fn push_calls(
    running: &mut Running,
    names: &Names,
    calls: &str,
    into: &mut Vec<u8>,
) -> Result<(), Stop> {
    for (place, call) in calls.split(' ').enumerate() {
        if place > 0 {
            into.extend_from_slice(b" / ")?;
        }
        push_call(running, names, call, into)?;
    }
    Ok(())
}

/// Answers calls on the trees that are read.
fn answer_with(
    alloc: Global,
    served: Served,
    calls: &str,
    operands: &Operands,
    into: &mut Vec<u8>,
) -> Result<(), Stop> {
    let trees = trees_from(alloc, &operands.all)?;
    let mut running = Running {
        served,
        trees,
        taken: 0,
    };
    push_calls(&mut running, &operands.names, calls, into)
}

/// Answers calls that are written before trees.
fn answer_served(
    alloc: Global,
    served: Served,
    rest: &str,
    into: &mut Vec<u8>,
) -> Result<(), Stop> {
    let Some((calls, trees)) = rest.split_once(" : ") else {
        return Err(Stop::OtherParts);
    };
    let operands = read_operands(alloc, trees)?;
    answer_with(alloc, served, calls, &operands, into)
}

/// The limit that is written before calls, and the calls.
fn split_limit(rest: &str) -> Result<(u64, &str), Stop> {
    let Some((cap, calls)) = rest.split_once(' ') else {
        return Err(Stop::OtherParts);
    };
    match cap.parse::<u64>() {
        Ok(cap) => Ok((cap, calls)),
        Err(_) => Err(Stop::OtherParts),
    }
}

/// Answers a row of calls of `apply`.
pub(crate) fn answer_calls(alloc: Global, rest: &str, into: &mut Vec<u8>) -> Result<(), Stop> {
    let (cap, calls) = split_limit(rest)?;
    let served = Served::Applied(Table::new(alloc, cap));
    answer_served(alloc, served, calls, into)
}

/// Answers a row of calls through doors that are lent.
pub(crate) fn answer_lent(alloc: Global, rest: &str, into: &mut Vec<u8>) -> Result<(), Stop> {
    let (cap, calls) = split_limit(rest)?;
    let served = Served::Lent(Table::new(alloc, cap));
    answer_served(alloc, served, calls, into)
}

/// Answers a row of calls through a full door.
pub(crate) fn answer_full(alloc: Global, rest: &str, into: &mut Vec<u8>) -> Result<(), Stop> {
    let served = Served::Full(FullDoor::new(alloc, 0));
    answer_served(alloc, served, rest, into)
}
