//! One pass makes each call, and one through a door.
ghost use Rattle.std.specs.Prelude.{◌≡◌, [], ◌∷◌, IfOk, IfSome, Contains};
ghost use Rattle.mars_table.specs.History.{held};
ghost use Rattle.mars_book.specs.Books.{IsPassOf};

use mars_base::NoMemory;
use mars_book::{Book, BookDoor, BookPass, Interned};
use mars_canon::Tree;
use mars_table::{Call, Door, Handle, Reply};
use std::alloc::Global;
use std::sync::Wait;

/// The row limit.
const LIMIT: u64 = 1;

/// What the calls answered.
#[derive(Clone, Copy)]
pub(crate) struct Told {
    pub(crate) handle: Handle,
    /// How many nodes the tree had that was shown.
    pub(crate) shown: usize,
    pub(crate) swept: u64,
    pub(crate) rows: u64,
    pub(crate) pins: u64,
    /// The same as `shown`, after the sweep.
    pub(crate) again: usize,
    /// The pins, as a door counts them.
    pub(crate) by_door: u64,
}

/// Keeps a tree where there is room.
fn keep<R: Wait>(
    rt: &R,
    book: &Book,
    pass: &mut BookPass,
    tree: Tree,
) -> Result<Option<Handle>, NoMemory>
    requires of { IsPassOf book.now pass.old }
    requires none { pass.old.view.mine ≡ [] }
    ensures of { IsPassOf book.now pass.new }
    ensures pins { IfOk result (λ told. IfSome told (λ h. held pass.new.view.mine ≡ h.0 ∷ [])) }
{
    // a `Tree` may be interned
    let _nodes = tree.len();
    match book.intern(rt, pass, tree)? {
        Interned::Kept(handle) => Ok(Some(handle)),
        Interned::Full { .. } => Ok(None),
    }
}

/// How many nodes the tree of a row has, on which the pass has a pin. Its pins stay.
fn nodes_shown<R: Wait>(
    rt: &R,
    book: &Book,
    pass: &mut BookPass,
    handle: Handle,
) -> Result<usize, NoMemory>
    requires of { IsPassOf book.now pass.old }
    requires may { Contains (held pass.old.view.mine) handle.0 }
    ensures of { IsPassOf book.now pass.new }
    ensures pins { IfOk result (λ nodes. held pass.new.view.mine ≡ held pass.old.view.mine) }
{
    let tree = book.show(rt, pass, handle)?;
    Ok(tree.len())
}

/// Counts the pins through a door.
fn pins_by_door<R: Wait>(rt: &R, book: &Book, pass: &mut BookPass) -> Result<u64, NoMemory>
    requires { IsPassOf book.now pass.old }
{
    let mut door = BookDoor::new(rt, book, pass);
    match door.call(Call::Count)? {
        Reply::Counted { rows: _, pins } => Ok(pins),
        _ => Ok(0),
    }
}

/// Pins a row on which there is one pin, shows it, drops that pin again, sweeps, counts, and shows the row once more.
fn call_each<R: Wait>(
    rt: &R,
    book: &Book,
    pass: &mut BookPass,
    handle: Handle,
) -> Result<Told, NoMemory>
    requires of { IsPassOf book.now pass.old }
    requires pins { held pass.old.view.mine ≡ handle.0 ∷ [] }
{
    book.pin(rt, pass, handle)?;
    let shown = nodes_shown(rt, book, pass, handle)?;
    book.drop(rt, pass, handle);
    let swept = book.sweep(rt, pass)?;
    let (rows, pins) = book.count(rt, pass)?;
    let again = nodes_shown(rt, book, pass, handle)?;
    let by_door = pins_by_door(rt, book, pass)?;
    Ok(Told {
        handle,
        shown,
        swept,
        rows,
        pins,
        again,
        by_door,
    })
}

/// One pass keeps a tree, and makes each call.
pub(crate) fn call_alone<R: Wait>(
    rt: &R,
    alloc: Global,
    tree: Tree,
) -> Result<Option<Told>, NoMemory> {
    let (book, mut pass) = Book::open(alloc, LIMIT)?;
    match keep(rt, &book, &mut pass, tree)? {
        None => Ok(None),
        Some(handle) => {
            let told = call_each(rt, &book, &mut pass, handle)?;
            Ok(Some(told))
        }
    }
}
