//! Rows of two terms: whether they are equal, and the rules and asks that have them.
use mars_term::{Ask, Goal, Rule, Term};
use mars_tree::NameId;
use rows::Stop;
use sqlite_items::{Boxed, Items};
use std::alloc::{AllocError, Global};
use std::hash::{DefaultHasher, Hash, Hasher};

/// Answers with what two terms have alike.
pub fn answer_terms(
    alloc: Global,
    left: &str,
    right: &str,
    into: &mut Vec<u8>,
) -> Result<(), Stop> {
    let left = term_of(alloc, left)?;
    let right = term_of(alloc, right)?;
    push_found(b"term", left == right, into)?;
    push_found(b", hash", hash_of(&left) == hash_of(&right), into)?;
    let rules = rule_of(alloc, &left)? == rule_of(alloc, &right)?;
    push_found(b", rule", rules, into)?;
    let asks = ask_of(alloc, &left)? == ask_of(alloc, &right)?;
    Ok(push_found(b", ask", asks, into)?)
}

/// Appends what is compared, and whether it is equal.
fn push_found(what: &[u8], is_equal: bool, into: &mut Vec<u8>) -> Result<(), AllocError> {
    into.extend_from_slice(what)?;
    into.extend_from_slice(if is_equal { b" equal" } else { b" not" })
}

/// The term of a word, which is written from the inside out; the empty tuple where the word is empty.
fn term_of(alloc: Global, word: &str) -> Result<Term, AllocError> {
    let mut parts = Vec::new(alloc);
    for letter in word.as_bytes() {
        read_letter(alloc, *letter, &mut parts)?;
    }
    Ok(parts.pop().unwrap_or(Term::Tup(Items::new(alloc))))
}

/// Reads one letter: `f` and `<` take all parts so far as arguments, `.` the last two, and any other letter is a part.
fn read_letter(alloc: Global, letter: u8, parts: &mut Vec<Term>) -> Result<(), AllocError> {
    let term = match letter {
        b'x' => Term::Var(0),
        b'y' => Term::Var(1),
        b'k' => Term::Kept(0),
        b'1' => Term::Int(1),
        b'2' => Term::Int(2),
        b'a' => Term::Name(NameId(13), Items::new(alloc)),
        b's' => Term::Str(NameId(13)),
        b'f' => Term::Name(NameId(14), all_of(alloc, parts)),
        b'<' => Term::Tup(all_of(alloc, parts)),
        _ => dot_of(alloc, parts)?,
    };
    parts.push(term)?;
    Ok(())
}

/// All parts, which are taken.
fn all_of(alloc: Global, parts: &mut Vec<Term>) -> Items<Term> {
    Items::from_vec(std::mem::replace(parts, Vec::new(alloc)))
}

/// The dot of the last two parts, which are taken.
fn dot_of(alloc: Global, parts: &mut Vec<Term>) -> Result<Term, AllocError> {
    let rest = parts.pop().unwrap_or(Term::Var(0));
    let first = parts.pop().unwrap_or(Term::Var(0));
    Ok(Term::Dot(Boxed::new(alloc, first)?, Boxed::new(alloc, rest)?))
}

/// What a term writes, as one number.
fn hash_of(term: &Term) -> u64 {
    let mut state = DefaultHasher::new();
    term.hash(&mut state);
    state.finish()
}

/// A rule whose head and one goal are a term.
fn rule_of(alloc: Global, term: &Term) -> Result<Rule, AllocError> {
    let mut body = Items::new(alloc);
    body.push(Goal::Call(copy_of(alloc, term)?))?;
    body.push(Goal::Cut)?;
    let head = copy_of(alloc, term)?;
    Ok(Rule {
        head,
        body,
        vars: 2,
    })
}

/// An ask whose goal is a term.
fn ask_of(alloc: Global, term: &Term) -> Result<Ask, AllocError> {
    let mut goals = Items::new(alloc);
    goals.push(Goal::Call(copy_of(alloc, term)?))?;
    Ok(Ask {
        most: Some(1),
        goals,
        vars: Items::from_slice(alloc, &[NameId(15), NameId(16)])?,
        kept: Items::from_slice(alloc, &[NameId(17)])?,
    })
}

/// A copy of a term.
fn copy_of(alloc: Global, term: &Term) -> Result<Term, AllocError> {
    match term.copy(alloc) {
        Ok(copy) => Ok(copy),
        Err(_) => Err(AllocError),
    }
}
