//! The hash of terms. A row of dots is gone along by a loop, so calls nest as deep as brackets do.
ghost use Rattle.std.specs.Prelude.{◌≡◌, ◌++◌, pos, fold};
ghost use Rattle.std.specs.Hash.{isize as place_writes, u32 as number_writes, i64 as integer_writes, slice as list_writes};
ghost use Rattle.mars_term.specs.TermEquality.{term_writes, name_writes};

use crate::term::Term;
use mars_tree::NameId;
use std::hash::{Hash, Hasher};

/// Hashes a place of a variant, and a number.
fn hash_number<H: Hasher>(place: isize, number: u32, state: &mut H)
    ensures { state.new ≡ fold H.write state.old (place_writes place ++ number_writes number) }
{
    state.write_isize(place);
    state.write_u32(number);
}

/// Hashes a place of a variant, and an integer.
fn hash_int<H: Hasher>(place: isize, number: i64, state: &mut H)
    ensures { state.new ≡ fold H.write state.old (place_writes place ++ integer_writes number) }
{
    state.write_isize(place);
    state.write_i64(number);
}

/// Hashes a place of a variant, and a name.
fn hash_name<H: Hasher>(place: isize, name: NameId, state: &mut H)
    ensures { state.new ≡ fold H.write state.old (place_writes place ++ name_writes name) }
{
    state.write_isize(place);
    name.hash(state);
}

#[cycle(hash)]
/// Hashes a term: the place of its variant, and then what it holds.
fn hash_term<H: Hasher>(term: &Term, state: &mut H)
    ensures { state.new ≡ fold H.write state.old (term_writes term.now) }
{
    match term {
        Term::Var(number) => hash_number(0, *number, state),
        Term::Int(number) => hash_int(1, *number, state),
        Term::Name(name, terms) => {
            hash_name(2, *name, state);
            hash_terms(terms.as_slice(), state)
        }
        Term::Tup(terms) => {
            state.write_isize(3);
            hash_terms(terms.as_slice(), state)
        }
        Term::Dot(first, rest) => hash_dots(first.get(), rest.get(), state),
        Term::Kept(number) => hash_number(5, *number, state),
        Term::Str(name) => hash_name(6, *name, state),
    }
}

#[cycle(hash)]
/// Hashes how many terms there are, and then each.
fn hash_terms<H: Hasher>(terms: &[Term], state: &mut H)
    ensures { state.new ≡ fold H.write state.old (list_writes term_writes terms.now) }
{
    state.write_usize(terms.len());
    for place in 0..terms.len() {
        hash_term(&terms[place], state);
    }
}

#[cycle(hash)]
/// Hashes the dot of two terms, of which the right one may be a row of dots.
fn hash_dots<H: Hasher>(first: &Term, rest: &Term, state: &mut H)
    ensures { state.new ≡ fold H.write state.old (place_writes (pos 4) ++ (term_writes first.now ++ term_writes rest.now)) }
{
    state.write_isize(4);
    hash_term(first, state);
    let mut last = rest;
    while let Term::Dot(next, after) = last {
        state.write_isize(4);
        hash_term(next.get(), state);
        last = after.get();
    }
    hash_term(last, state)
}

impl Hash for Term {
    ghost use Rattle.mars_term.specs.TermEquality.{term_writes};
    ghost use Rattle.mars_term.specs.TermEqualityLaws.{terms_alike};

    ghost hash_input = { term_writes };

    ghost respects_eq = { terms_alike };

    /// Hashes the place of the variant, and then what the term holds. Linear in the term.
    fn hash<H: Hasher>(&self, state: &mut H) {
        hash_term(self, state);
    }
}
