//! Goals, rules and asks.
use crate::term::Term;
use mars_tree::NameId;
use sqlite_items::Items;

/// A list of goals.
pub type Goals = Items<Goal>;

/// A list of names.
pub type NameIds = Items<NameId>;

/// The version of an input: the second one has strings, rules of a session, and one more built-in.
#[derive(Clone, Copy, Debug, PartialEq, Eq, Hash)]
pub enum Version {
    One,
    Two,
}

/// A goal of a rule or an ask: a call, or a cut.
#[derive(PartialEq, Eq, Hash, Drop)]
pub enum Goal {
    Call(Term),
    Cut,
}

/// A rule. Contracts that take rules ask for `IsRule`.
#[derive(Drop)]
pub struct Rule {
    pub head: Term,
    pub body: Goals,
    /// How many variables there are.
    pub vars: u32,
}

/// An ask: goals, with the most answers that are wanted. Contracts that take asks ask for `IsAsk`.
#[derive(Drop)]
pub struct Ask {
    pub most: Option<u64>,
    pub goals: Goals,
    /// The spellings of the variables, by their numbers.
    pub vars: NameIds,
    /// The kept names, in the order in which they are written, by their numbers.
    pub kept: NameIds,
}
