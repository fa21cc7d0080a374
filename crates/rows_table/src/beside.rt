//! Random calls of four callers on a table and on a plain list of rows, reply by reply.
use crate::called::{call_applied, call_lent};
use crate::plain::{PlainReply, PlainTable, Sample, draw_sample};
use crate::tally::{Kind, Tally};
use mars_base::NoMemory;
use mars_canon::Tree;
use mars_table::{Call, Handle, Reply, Table};
use mars_tree::Graph;
use rows::{Draw, Stop, push_number};
use std::alloc::Global;

/// How many callers there are.
const CALLERS: usize = 4;

/// A table, and the plain list of rows on which the same calls are made.
#[derive(Drop)]
struct Beside {
    table: Table,
    plain: PlainTable,
    cap: u64,
    /// Whether each call goes through a door that is lent for it.
    lent: bool,
    /// How many calls were made.
    made: usize,
}

/// A caller that looks random, and a number: a pin that is there, three times of four.
fn draw_pin(plain: &PlainTable, draw: &mut Draw) -> (u32, u128) {
    let count = plain.pins.len();
    if count > 0 && draw.below(4) > 0 {
        let place = draw.below(count);
        return plain.pins[place];
    }
    (draw.below(CALLERS) as u32, draw.below(12) as u128)
}

/// Makes a call on the table; none where its caller may not make it.
fn call_table(beside: &mut Beside, who: u32, call: Call) -> Result<Option<Reply>, NoMemory> {
    let reply = if beside.lent {
        call_lent(&mut beside.table, who, call)?
    } else {
        call_applied(&mut beside.table, who, call)?
    };
    if reply.is_some() {
        beside.made = beside.made.wrapping_add(1);
    }
    Ok(reply)
}

/// Whether the table's reply, which shows no tree, is the plain list's.
fn is_same(reply: &Option<Reply>, plain: PlainReply, cap: u64) -> bool {
    match reply {
        Some(Reply::Kept(Handle(number))) => plain == PlainReply::Root(*number),
        Some(
            Reply::Full {
                rows,
                fresh,
                cap: limit,
            },
        ) => {
            let wanted = PlainReply::Full {
                rows: *rows,
                fresh: *fresh,
            };
            *limit == cap && plain == wanted
        }
        Some(Reply::Pinned) => plain == PlainReply::Pinned(true),
        Some(Reply::Dropped) => plain == PlainReply::Unpinned(true),
        Some(Reply::Swept(count)) => plain == PlainReply::Swept(*count),
        _ => false,
    }
}

/// The kind, where both sides agree.
fn kind_where(agree: bool, kind: Kind) -> Option<Kind> {
    if agree { Some(kind) } else { None }
}

/// How many rows counts say.
fn rows_in(counts: PlainReply) -> u64 {
    match counts {
        PlainReply::Counted(rows, _, _) => rows,
        _ => 0,
    }
}

/// What interning came to, by the counts before it and after it.
fn kind_of_intern(reply: PlainReply, before: PlainReply, after: PlainReply) -> Kind {
    match reply {
        PlainReply::Root(_) if rows_in(after) < rows_in(before) => Kind::BySweep,
        PlainReply::Root(_) if after == before => Kind::Again,
        PlainReply::Root(_) => Kind::Kept,
        _ => Kind::Full,
    }
}

/// Interns a tree on the plain list, with a pin on its root.
fn intern_plain(
    plain: &mut PlainTable,
    who: u32,
    graph: &Graph,
) -> Result<(PlainReply, Kind), NoMemory> {
    let before = plain.counts();
    let reply = plain.add(graph)?;
    let kind = kind_of_intern(reply, before, plain.counts());
    if let PlainReply::Root(number) = reply {
        let _ = plain.pin(who, number)?;
    }
    Ok((reply, kind))
}

/// Interns a tree on both.
fn both_intern(
    alloc: Global,
    beside: &mut Beside,
    who: u32,
    draw: &mut Draw,
) -> Result<Option<Kind>, Stop> {
    let Sample { form, tree } = draw_sample(alloc, draw)?;
    let (plain, kind) = intern_plain(&mut beside.plain, who, form.graph())?;
    let reply = call_table(beside, who, Call::Intern(tree))?;
    Ok(kind_where(is_same(&reply, plain, beside.cap), kind))
}

/// Makes a call on the table whose caller has no pin on the row that it names.
fn table_refuses(beside: &mut Beside, who: u32, call: Call) -> Result<Option<Kind>, Stop> {
    let reply = call_table(beside, who, call)?;
    Ok(kind_where(reply.is_none(), Kind::NoPin))
}

/// Puts one more pin on a row of both.
fn both_pin(beside: &mut Beside, who: u32, number: u128) -> Result<Option<Kind>, Stop> {
    let call = Call::Pin(Handle(number));
    if !beside.plain.pins.contains(&(who, number)) {
        return table_refuses(beside, who, call);
    }
    let plain = beside.plain.pin(who, number)?;
    let reply = call_table(beside, who, call)?;
    Ok(kind_where(is_same(&reply, plain, beside.cap), Kind::Pinned))
}

/// Takes a pin off a row of both.
fn both_drop(beside: &mut Beside, who: u32, number: u128) -> Result<Option<Kind>, Stop> {
    let call = Call::Drop(Handle(number));
    if !beside.plain.pins.contains(&(who, number)) {
        return table_refuses(beside, who, call);
    }
    let plain = beside.plain.unpin(who, number);
    let reply = call_table(beside, who, call)?;
    Ok(kind_where(is_same(&reply, plain, beside.cap), Kind::Dropped))
}

/// Whether a reply shows this tree.
fn shows(reply: &Option<Reply>, tree: &Option<Tree>) -> bool {
    match (reply, tree) {
        (Some(Reply::Shown(shown)), Some(tree)) => shown == tree,
        _ => false,
    }
}

/// Shows a row of both.
fn both_show(
    alloc: Global,
    beside: &mut Beside,
    who: u32,
    number: u128,
) -> Result<Option<Kind>, Stop> {
    let call = Call::Show(Handle(number));
    if !beside.plain.pins.contains(&(who, number)) {
        return table_refuses(beside, who, call);
    }
    let reply = call_table(beside, who, call)?;
    let tree = beside.plain.tree_of(alloc, number)?;
    Ok(kind_where(shows(&reply, &tree), Kind::Shown))
}

/// Sweeps both.
fn both_sweep(beside: &mut Beside, who: u32) -> Result<Option<Kind>, Stop> {
    let plain = beside.plain.sweep()?;
    let reply = call_table(beside, who, Call::Sweep)?;
    let kind = if plain == PlainReply::Swept(0) {
        Kind::Stayed
    } else {
        Kind::Swept
    };
    Ok(kind_where(is_same(&reply, plain, beside.cap), kind))
}

/// Whether a reply counts the rows and pins that the plain list has.
fn counts_same(reply: &Option<Reply>, plain: PlainReply) -> bool {
    match (reply, plain) {
        (Some(Reply::Counted { rows, pins }), PlainReply::Counted(others, more, _)) => {
            *rows == others && *pins == more
        }
        _ => false,
    }
}

/// Counts both.
fn both_count(beside: &mut Beside, who: u32) -> Result<Option<Kind>, Stop> {
    let reply = call_table(beside, who, Call::Count)?;
    Ok(kind_where(counts_same(&reply, beside.plain.counts()), Kind::Counted))
}

/// Makes a call on both; none where they differ, else its kind.
fn both_call(alloc: Global, beside: &mut Beside, draw: &mut Draw) -> Result<Option<Kind>, Stop> {
    let (who, number) = draw_pin(&beside.plain, draw);
    match draw.below(12) {
        0 | 1 | 2 | 3 => both_intern(alloc, beside, who, draw),
        4 => both_pin(beside, who, number),
        5 => both_show(alloc, beside, who, number),
        6 | 7 | 8 | 9 => both_drop(beside, who, number),
        10 => both_sweep(beside, who),
        _ => both_count(beside, who),
    }
}

/// Makes so many calls on both, and tells whether they agree and each left an entry in the history.
fn agree_over(
    alloc: Global,
    beside: &mut Beside,
    calls: usize,
    draw: &mut Draw,
    tally: &mut Tally,
) -> Result<bool, Stop> {
    for _ in 0..calls {
        match both_call(alloc, beside, draw)? {
            Some(kind) => tally.count(kind),
            None => return Ok(false),
        }
    }
    Ok(beside.table.history().len() == beside.made)
}

/// A list of calls on no rows, with a limit that looks random; every other one through doors.
fn list_agrees(
    alloc: Global,
    list: usize,
    calls: usize,
    draw: &mut Draw,
    tally: &mut Tally,
) -> Result<bool, Stop> {
    let cap = draw.below(9) as u64;
    let mut beside = Beside {
        table: Table::new(alloc, cap),
        plain: PlainTable::new(alloc, cap),
        cap,
        lent: list % 2 == 1,
        made: 0,
    };
    agree_over(alloc, &mut beside, calls, draw, tally)
}

/// Answers with whether so many lists of so many calls agree, and whether each kind of reply came often.
pub(crate) fn answer_lists(
    alloc: Global,
    seed: u64,
    lists: usize,
    calls: usize,
    into: &mut Vec<u8>,
) -> Result<(), Stop> {
    let mut draw = Draw::new(seed);
    let mut tally = Tally::new();
    for list in 0..lists {
        if !list_agrees(alloc, list, calls, &mut draw, &mut tally)? {
            into.extend_from_slice(b"differs in list ")?;
            return Ok(push_number(list, into)?);
        }
    }
    into.extend_from_slice(if tally.is_full() {
        b"all agree, each reply came"
    } else {
        b"all agree, few replies came"
    })?;
    Ok(())
}
