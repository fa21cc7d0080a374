//! Names and tuples whose arguments are being read, the innermost last.
ghost use Rattle.std.specs.Prelude.{◌≡◌, ◌∷◌, [], ◌++◌, OnOk, reverse};
ghost use Rattle.mars_clauses.specs.Terms.{term_made, head_made, paired};

use mars_base::NoMemory;
use mars_term::{Term, Terms};
use mars_tree::NameId;
use sqlite_items::Boxed;
use std::alloc::Global;

/// A name, or nothing for a tuple, and its arguments so far.
#[derive(Drop)]
pub struct OpenTerm {
    pub opening: Option<NameId>,
    pub terms: Terms,
}

/// The term of a name or a tuple.
pub(crate) fn term_made(opening: Option<NameId>, terms: Terms) -> Term
    ensures { result ≡ term_made opening terms }
{
    match opening {
        Some(name) => Term::Name(name, terms),
        None => Term::Tup(terms),
    }
}

/// The head that a name with its arguments is.
pub(crate) fn head_made(opening: Option<NameId>, terms: Terms) -> Option<Term>
    ensures { result ≡ head_made opening terms }
{
    match opening {
        Some(name) => Some(Term::Name(name, terms)),
        None => None,
    }
}

/// Makes one term of the last two.
pub(crate) fn pair(alloc: Global, terms: &mut Terms) -> Result<(), NoMemory>
    ensures { OnOk result (terms.new ≡ paired terms.old) }
{
    let Some(right) = terms.pop() else {
        return Ok(());
    };
    let Some(left) = terms.pop() else {
        terms.push(right)?;
        return Ok(());
    };
    let left = Boxed::new(alloc, left)?;
    let right = Boxed::new(alloc, right)?;
    terms.push(Term::Dot(left, right))?;
    Ok(())
}
