//! Passes: one for each job and one for the program, made from the opening pass and met again.
ghost use Rattle.std.specs.Prelude.{◌≡◌, ◌+◌, ◌<◌, ◌^◌, ℕ, [], All, IfOk, Some, length, map, reverse, slice_get, vec_len};
ghost use Rattle.mars_turn.specs.Views.{IsComplete};
ghost use Rattle.mars_turn.specs.Steps.{opening_view};
ghost use Rattle.mars_book.specs.Books.{IsPassOf};
ghost use Rattle.mars_book.specs.PassSeen.{PassSeen, KnowsHistory, knowing};
ghost use Rattle.mars_gate.specs.PassesInside.{pass_at, made_at, AreMadeAt, HasMetPass, ended_pass};

use mars_base::NoMemory;
use mars_book::{Book, BookPass};
use std::alloc::Global;

/// The opening pass and as many more that were split off it: pass k has number k.
pub(crate) fn passes_of(
    alloc: Global,
    book: &Book,
    opening: BookPass,
    more: u32,
) -> Result<Vec<BookPass>, NoMemory>
    requires of { IsPassOf book.now opening }
    requires opening { opening.view ≡ opening_view book.now.cap }
    requires few { more + 1 < 2 ^ 32 }
    ensures count { IfOk result (λ passes. vec_len passes ≡ more + 1) }
    ensures each { IfOk result (λ passes. (k : ℕ) (p : PassSeen) → slice_get passes.items k ≡ Some p → p ≡ knowing opening (pass_at book.now.cap (more + 1) k)) }
{
    let mut passes = Vec::new(alloc);
    passes.reserve(more as usize + 1)?;
    passes.push_reserved(opening);
    for _ in 0..more {
        let next = book.split(&mut passes[0]);
        passes.push(next)?;
    }
    Ok(passes)
}

/// Lets the program's pass meet all others, the last one first: pass k has number k, and the program's the next one.
pub(crate) fn meet_all(book: &Book, program: BookPass, mut passes: Vec<BookPass>) -> BookPass
    requires of { IsPassOf book.now program × All (λ p. IsPassOf book.now p) passes.items }
    requires ended { (program.view.ended ≡ []) × All (λ p. p.view.ended ≡ []) passes.items }
    requires made { AreMadeAt (length passes.items + 1) passes.items × (program.view.made ≡ made_at (length passes.items + 1) (length passes.items)) }
    ensures of { IsPassOf book.now result }
    ensures knows { KnowsHistory result.view }
    ensures same { (result.view.number ≡ program.view.number) × (result.view.mine ≡ program.view.mine) }
    ensures complete { IsComplete result.view }
    ensures ended { result.view.ended ≡ map ended_pass (reverse passes.items) }
    ensures met { All (λ p. HasMetPass p result) passes.items }
{
    let mut program = program;
    // what a pass knows of the history
    let _number = program.number();
    while let Some(pass) = passes.pop() {
        let _number = pass.number();
        program = book.meet(pass, program);
    }
    program
}
