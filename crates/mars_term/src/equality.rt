//! Equality of terms, part by part, and their hash. A row of dots is gone along by a loop, so calls nest as deep as
//! brackets do.
ghost use Rattle.std.specs.Prelude.{◌≡◌, ◌↔◌, IsTrue};
ghost use Rattle.mars_term.specs.declared.term.Term.{Var, Int, Name, Tup, Dot, Kept, Str};

use crate::term::Term;
use mars_tree::NameId;

/// Whether two names are one.
fn is_name(name: NameId, other: NameId) -> bool
    ensures { IsTrue result ↔ (name ≡ other) }
{
    name == other
}

/// Whether a term is the variable with this number.
fn is_var(number: u32, term: &Term) -> bool
    ensures { IsTrue result ↔ (Var number ≡ term.now) }
{
    match term {
        Term::Var(other) => number == *other,
        _ => false,
    }
}

/// Whether a term is this integer.
fn is_int(number: i64, term: &Term) -> bool
    ensures { IsTrue result ↔ (Int number ≡ term.now) }
{
    match term {
        Term::Int(other) => number == *other,
        _ => false,
    }
}

/// Whether a term is the kept name with this number.
fn is_kept(number: u32, term: &Term) -> bool
    ensures { IsTrue result ↔ (Kept number ≡ term.now) }
{
    match term {
        Term::Kept(other) => number == *other,
        _ => false,
    }
}

/// Whether a term is this string.
fn is_string(name: NameId, term: &Term) -> bool
    ensures { IsTrue result ↔ (Str name ≡ term.now) }
{
    match term {
        Term::Str(other) => name == *other,
        _ => false,
    }
}

#[cycle(same)]
/// Whether two terms are one.
fn same_term(term: &Term, other: &Term) -> bool
    ensures { IsTrue result ↔ (term.now ≡ other.now) }
{
    match term {
        Term::Var(number) => is_var(*number, other),
        Term::Int(number) => is_int(*number, other),
        Term::Name(name, terms) => same_name(*name, terms.as_slice(), other),
        Term::Tup(terms) => same_tuple(terms.as_slice(), other),
        Term::Dot(first, rest) => same_dots(first.get(), rest.get(), other),
        Term::Kept(number) => is_kept(*number, other),
        Term::Str(name) => is_string(*name, other),
    }
}

#[cycle(same)]
/// Whether a term is the name with these arguments.
fn same_name(name: NameId, terms: &[Term], other: &Term) -> bool
    ensures { IsTrue result ↔ (Name name terms.now ≡ other.now) }
{
    match other {
        Term::Name(found, others) => is_name(name, *found) && same_terms(terms, others.as_slice()),
        _ => false,
    }
}

#[cycle(same)]
/// Whether a term is the tuple of these terms.
fn same_tuple(terms: &[Term], other: &Term) -> bool
    ensures { IsTrue result ↔ (Tup terms.now ≡ other.now) }
{
    match other {
        Term::Tup(others) => same_terms(terms, others.as_slice()),
        _ => false,
    }
}

#[cycle(same)]
/// Whether two lists of terms are one.
fn same_terms(terms: &[Term], others: &[Term]) -> bool
    ensures { IsTrue result ↔ (terms.now ≡ others.now) }
{
    if terms.len() != others.len() {
        return false;
    }
    for place in 0..terms.len() {
        if !same_term(&terms[place], &others[place]) {
            return false;
        }
    }
    true
}

#[cycle(same)]
/// Whether a term is the dot of two terms, of which the right one may be a row of dots.
fn same_dots(first: &Term, rest: &Term, other: &Term) -> bool
    ensures { IsTrue result ↔ (Dot first.now rest.now ≡ other.now) }
{
    let Term::Dot(other_first, other_rest) = other else {
        return false;
    };
    if !same_term(first, other_first.get()) {
        return false;
    }
    let mut last = rest;
    let mut other_last = other_rest.get();
    while let Term::Dot(next, after) = last {
        let Term::Dot(other_next, other_after) = other_last else {
            return false;
        };
        if !same_term(next.get(), other_next.get()) {
            return false;
        }
        last = after.get();
        other_last = other_after.get();
    }
    same_term(last, other_last)
}

impl PartialEq for Term {
    ghost use Rattle.mars_term.specs.TermEquality.{same_term};
    ghost use Rattle.mars_term.specs.TermEqualityLaws.{terms_partial_equivalence};

    ghost eq = { same_term };

    ghost laws = { terms_partial_equivalence };

    /// Whether two terms are one. Linear in the smaller of them.
    fn eq(&self, other: &Term) -> bool
        ensures value { result ≡ same_term self.now other.now }
        ensures same { IsTrue result ↔ (self.now ≡ other.now) }
    {
        same_term(self, other)
    }
}

impl Eq for Term {
    ghost use Rattle.mars_term.specs.TermEqualityLaws.{terms_equivalence};

    ghost laws = { terms_equivalence };
}
