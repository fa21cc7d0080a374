//! Terms.
use mars_tree::NameId;
use sqlite_items::{Boxed, Items};

/// A list of terms.
pub type Terms = Items<Term>;

/// A term of a rule or an ask.
#[derive(Drop)]
pub enum Term {
    /// A variable, by its number from 0.
    Var(u32),
    Int(i64),
    Name(NameId, Terms),
    Tup(Terms),
    Dot(Boxed<Term>, Boxed<Term>),
    /// A kept name of an ask, by its number from 0.
    Kept(u32),
    Str(NameId),
}
