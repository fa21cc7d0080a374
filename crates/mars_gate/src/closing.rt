//! The closing calls of the program.
ghost use Rattle.std.specs.Prelude.{◌≡◌, ◌+◌, [], All, IfOk, length};
ghost use Rattle.mars_turn.specs.Views.{IsComplete};
ghost use Rattle.mars_table.specs.History.{Legal, of};
ghost use Rattle.mars_book.specs.Books.{IsPassOf};
ghost use Rattle.mars_gate.specs.Closing.{ClosingIsLast, closing_entries};
ghost use Rattle.mars_gate.specs.ClosingInside.{IsClosedBy};
ghost use Rattle.mars_gate.specs.PassesInside.{IsHired, AreHired};

use crate::passes::meet_all;
use mars_base::NoMemory;
use mars_book::{Book, BookPass};
use mars_table::Table;
use std::sync::Wait;

/// What the closing calls replied: how many rows went, and how many rows and pins there are then.
#[derive(Clone, Copy, Debug, PartialEq, Eq)]
pub struct ClosingReplies {
    pub swept: u64,
    pub rows: u64,
    pub pins: u64,
}

/// Sweeps, counts and closes the book, by the pass that all others have met.
fn close<R: Wait>(
    rt: &R,
    book: Book,
    program: BookPass,
) -> Result<(Table, ClosingReplies), NoMemory>
    requires of { IsPassOf book program }
    requires complete { IsComplete program.view }
    requires none { program.view.mine ≡ [] }
    ensures limit { IfOk result (λ r. r.0.cap ≡ book.cap) }
    ensures legal { IfOk result (λ r. Legal r.0.cap r.0.history) }
    ensures closed { IfOk result (λ r. IsClosedBy program.view r.1 r.0.history) }
{
    let mut program = program;
    let swept = book.sweep(rt, &mut program)?;
    let (rows, pins) = book.count(rt, &mut program)?;
    let table = book.close(program);
    Ok((table, ClosingReplies { swept, rows, pins }))
}

/// Lets the program's pass meet all others, makes the closing calls, and closes the book.
pub(crate) fn meet_and_close<R: Wait>(
    rt: &R,
    book: Book,
    program: BookPass,
    passes: Vec<BookPass>,
) -> Result<(Table, ClosingReplies), NoMemory>
    requires passes { AreHired book (length passes.items + 1) passes.items }
    requires program { IsHired book (length passes.items + 1) (length passes.items) program × (program.view.mine ≡ []) }
    ensures limit { IfOk result (λ r. r.0.cap ≡ book.cap) }
    ensures legal { IfOk result (λ r. Legal r.0.cap r.0.history) }
    ensures own { IfOk result (λ r. All (λ p. of r.0.history p.view.number ≡ p.view.mine) passes.items) }
    ensures closing { IfOk result (λ r. ClosingIsLast (length passes.items) (closing_entries (length passes.items) r.1) r.0.history) }
{
    let program = meet_all(&book, program, passes);
    close(rt, book, program)
}
