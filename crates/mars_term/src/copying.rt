//! The same term once more. A row of dots is gone along by a loop, so calls nest as deep as brackets do.
ghost use Rattle.std.specs.Prelude.{◌≡◌, ◌++◌, ◌∷◌, [], IfOk, OnOk, ℕ, take};
ghost use Rattle.mars_term.specs.Rows.{dots};
ghost use Rattle.mars_term.specs.declared.term.Term.{Dot};

use crate::term::{Term, Terms};
use mars_base::NoMemory;
use sqlite_items::{Boxed, Items};
use std::alloc::Global;

impl Term {
    /// The same term once more. Linear in the term. The only error is out of memory.
    pub fn copy(&self, alloc: Global) -> Result<Term, NoMemory>
        ensures { IfOk result (λ copy. copy ≡ self.now) }
    {
        copy_term(alloc, self)
    }
}

#[cycle(copy)]
fn copy_term(alloc: Global, term: &Term) -> Result<Term, NoMemory>
    ensures { IfOk result (λ copy. copy ≡ term.now) }
{
    match term {
        Term::Var(number) => Ok(Term::Var(*number)),
        Term::Int(number) => Ok(Term::Int(*number)),
        Term::Name(name, terms) => Ok(Term::Name(*name, copy_terms(alloc, terms.as_slice())?)),
        Term::Tup(terms) => Ok(Term::Tup(copy_terms(alloc, terms.as_slice())?)),
        Term::Dot(left, right) => copy_dots(alloc, left.get(), right.get()),
        Term::Kept(number) => Ok(Term::Kept(*number)),
        Term::Str(name) => Ok(Term::Str(*name)),
    }
}

#[cycle(copy)]
fn copy_terms(alloc: Global, terms: &[Term]) -> Result<Terms, NoMemory>
    ensures { IfOk result (λ copy. copy ≡ terms.now) }
{
    let mut copy = Items::new(alloc);
    for term in terms {
        copy.push(copy_term(alloc, term)?)?;
    }
    Ok(copy)
}

#[cycle(copy)]
/// The dot of two terms, of which the right one may be a row of dots.
fn copy_dots(alloc: Global, left: &Term, right: &Term) -> Result<Term, NoMemory>
    ensures { IfOk result (λ copy. copy ≡ Dot left.now right.now) }
{
    let mut firsts = Vec::new(alloc);
    firsts.push(copy_term(alloc, left)?)?;
    let mut last = right;
    while let Term::Dot(left, right) = last {
        firsts.push(copy_term(alloc, left.get())?)?;
        last = right.get();
    }
    let last = copy_term(alloc, last)?;
    join_dots(alloc, firsts, last)
}

/// The row of dots of these terms, which ends with a last one.
fn join_dots(alloc: Global, mut firsts: Vec<Term>, mut last: Term) -> Result<Term, NoMemory>
    ensures { IfOk result (λ row. row ≡ dots firsts.items last) }
{
    while let Some(first) = firsts.pop() {
        last = Term::Dot(Boxed::new(alloc, first)?, Boxed::new(alloc, last)?);
    }
    Ok(last)
}
