//! Threads that call one table, each with a pass of its own.
ghost use Rattle.std.specs.Prelude.{◌≡◌, ◌+◌, All, Some, IfOk};
ghost use Rattle.mars_book.specs.Books.{IsPassOf};

use crate::book::trees::cycle;
use crate::failing::no_memory;
use mars_base::NoMemory;
use mars_book::{Book, BookPass};
use mars_canon::Tree;
use std::alloc::Global;
use std::sync::Wait;
use std::thread::Threads;
use std::time::{Clock, Instant};
use std::{io, thread};

/// The row limit.
const LIMIT: u64 = 16;

/// Which call is made.
#[derive(Clone, Copy, Debug, PartialEq, Eq)]
pub(crate) enum Kind {
    Count,
    Intern,
}

/// What came of a run.
#[derive(Clone, Copy)]
pub(crate) struct Measured {
    pub(crate) entries: usize,
    pub(crate) nanoseconds: u128,
}

/// So many passes, split off the opening one.
fn passes_of(
    alloc: Global,
    book: &Book,
    opening: &mut BookPass,
    threads: u16,
) -> Result<Vec<BookPass>, NoMemory>
    requires opening { IsPassOf book.now opening.old }
    requires first { (opening.old.view.number ≡ 0) × (opening.old.view.made ≡ Some 1) }
    ensures passes { IfOk result (λ passes. All (λ p. IsPassOf book.now p) passes.items) }
    ensures opening { IfOk result (λ passes. IsPassOf book.now opening.new) }
{
    let mut passes = Vec::new(alloc);
    for _ in 0..threads {
        let pass = book.split(opening);
        passes.push(pass)?;
    }
    Ok(passes)
}

/// Makes one call.
fn make_call<R: Wait>(
    rt: &R,
    book: &Book,
    pass: &mut BookPass,
    tree: &Tree,
    kind: Kind,
) -> Result<(), NoMemory>
    requires { IsPassOf book.now pass.old }
    ensures { IsPassOf book.now pass.new }
{
    match kind {
        Kind::Count => {
            book.count(rt, pass)?;
        }
        Kind::Intern => {
            let copy = tree.copy()?;
            // a `Tree` may be interned
            let _nodes = copy.len();
            book.intern(rt, pass, copy)?;
        }
    }
    Ok(())
}

/// Makes so many calls, or stops where it is out of memory.
fn make_calls<R: Wait>(
    rt: &R,
    book: &Book,
    pass: &mut BookPass,
    tree: &Tree,
    kind: Kind,
    calls: u64,
)
    requires { IsPassOf book.now pass.old }
    ensures { IsPassOf book.now pass.new }
{
    for _ in 0..calls {
        if make_call(rt, book, pass, tree, kind).is_err() {
            return;
        }
    }
}

/// A thread for each pass.
fn run_calls<R: Threads + Wait + Sync>(
    rt: &R,
    book: &Book,
    passes: &mut [BookPass],
    tree: &Tree,
    kind: Kind,
    calls: u64,
)
    requires { All (λ p. IsPassOf book.now p) passes.old }
    ensures { All (λ p. IsPassOf book.now p) passes.new }
{
    let threads = passes.len().max(1);
    thread::for_each_mut(
        rt,
        passes,
        threads,
        &|_, pass| { make_calls(rt, book, pass, tree, kind, calls) },
    );
}

/// Lets a pass meet all others, and closes the book: how many entries its table has.
fn close_all(book: Book, opening: BookPass, mut passes: Vec<BookPass>) -> usize
    requires opening { IsPassOf book opening }
    requires passes { All (λ p. IsPassOf book p) passes.items }
{
    let mut all = opening;
    while let Some(pass) = passes.pop() {
        all = book.meet(pass, all);
    }
    if all.complete() {
        book.close(all).history().len()
    } else {
        0
    }
}

/// So many threads make so many calls each.
pub(crate) fn run<R: Threads + Wait + Sync + Clock>(
    rt: &R,
    alloc: Global,
    kind: Kind,
    threads: u16,
    calls: u64,
) -> io::Result<Measured> {
    let Some(tree) = cycle(alloc).map_err(no_memory)? else {
        return Err(no_memory(NoMemory));
    };
    let (book, mut opening) = Book::open(alloc, LIMIT).map_err(no_memory)?;
    let mut passes = passes_of(alloc, &book, &mut opening, threads).map_err(no_memory)?;
    let start = Instant::now(rt)?;
    run_calls(rt, &book, passes.as_mut_slice(), &tree, kind, calls);
    let nanoseconds = start.elapsed(rt)?.as_nanos();
    let entries = close_all(book, opening, passes);
    Ok(Measured {
        entries,
        nanoseconds,
    })
}
