//! Two threads keep one tree in a book, each with a pass of its own; a third pass meets both, and closes.
ghost use Rattle.mars_book.specs.Books.{IsPassOf};

use mars_base::NoMemory;
use mars_book::{Book, BookPass, Interned};
use mars_canon::Tree;
use mars_table::Table;
use std::alloc::Global;
use std::sync::Wait;
use std::thread;
use std::thread::Threads;

/// The row limit.
const LIMIT: u64 = 16;

/// What two threads were told, and what the closed table has.
#[derive(Clone, Copy)]
pub(crate) struct Closed {
    pub(crate) one: Option<Interned>,
    pub(crate) two: Option<Interned>,
    /// How many entries pass 1 has.
    pub(crate) first: usize,
    /// How many entries pass 2 has.
    pub(crate) second: usize,
    pub(crate) entries: usize,
    pub(crate) rows: u64,
    pub(crate) pins: u64,
    /// The number of the pass that closed.
    pub(crate) by: u32,
}

/// Keeps a copy of a tree.
pub(crate) fn intern_copy<R: Wait>(
    rt: &R,
    book: &Book,
    pass: &mut BookPass,
    tree: &Tree,
) -> Result<Interned, NoMemory>
    requires { IsPassOf book.now pass.old }
    ensures { IsPassOf book.now pass.new }
{
    let copy = tree.copy()?;
    // a `Tree` may be interned
    let _nodes = copy.len();
    book.intern(rt, pass, copy)
}

/// Keeps a tree, and gives the pass back with what was told.
fn intern_as<R: Wait>(
    rt: &R,
    book: &Book,
    pass: BookPass,
    tree: &Tree,
) -> (BookPass, Option<Interned>)
    requires { IsPassOf book.now pass }
    ensures { IsPassOf book.now result.0 }
{
    let mut pass = pass;
    let told = intern_copy(rt, book, &mut pass, tree).ok();
    (pass, told)
}

/// How many entries of the history are a caller's.
fn entries_of(table: &Table, who: u32) -> usize {
    let mut count = 0_usize;
    for entry in table.history() {
        if entry.who == who {
            count = count.saturating_add(1);
        }
    }
    count
}

/// Closes a book where all passes have met this one, and tells what its table has.
fn close(book: Book, pass: BookPass, one: Option<Interned>, two: Option<Interned>) -> Option<Closed>
    requires { IsPassOf book pass }
{
    if !pass.complete() {
        return None;
    }
    let by = pass.number();
    let table = book.close(pass);
    let (rows, pins) = table.counts();
    Some(Closed {
        one,
        two,
        first: entries_of(&table, 1),
        second: entries_of(&table, 2),
        entries: table.history().len(),
        rows,
        pins,
        by,
    })
}

/// Two threads keep a tree; a third pass meets both, and closes.
pub(crate) fn keep_by_two<R: Threads + Wait + Sync>(
    rt: &R,
    alloc: Global,
    tree: &Tree,
) -> Result<Option<Closed>, NoMemory> {
    let (book, mut opening) = Book::open(alloc, LIMIT)?;
    let first = book.split(&mut opening);
    let second = book.split(&mut opening);
    let ((first, one), (second, two)) = thread::join(
        rt,
        || -> (BookPass, Option<Interned>)
            requires { IsPassOf book first }
            ensures { IsPassOf book result.0 }
        { intern_as(rt, &book, first, tree) },
        || -> (BookPass, Option<Interned>)
            requires { IsPassOf book second }
            ensures { IsPassOf book result.0 }
        { intern_as(rt, &book, second, tree) },
    );
    let all = book.meet(first, opening);
    let all = book.meet(second, all);
    Ok(close(book, all, one, two))
}
