//! The limits of an input that aren't in its grammar, and those refusals that go by what its tokens mean.
/// Which limit is passed, or which refusal it is.
#[derive(Clone, Copy, Debug, PartialEq, Eq, Drop)]
pub enum InputLimit {
    /// A seventeenth argument is due.
    Arity,
    /// There are more rules than an input may have.
    Rules,
    /// A rule or an ask has more written nodes than it may have.
    Clause,
    /// The number of answers that an ask wants is negative.
    Literal,
    /// There are more sessions than an input may have.
    Sessions,
    /// There are more commands than an input or a session may have.
    Commands,
    /// A rule's head is built in.
    BuiltIn,
    /// A session has the name of an earlier one.
    Twice,
}

/// A limit that is passed, and the place of the token that it is told of.
#[derive(Clone, Copy, Debug, PartialEq, Eq, Drop)]
pub struct OverLimit {
    pub limit: InputLimit,
    pub start: u32,
}
