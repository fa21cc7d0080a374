//! What a step tells.
use mars_answer::Answer;
use mars_canon::Canon;
use mars_tree::NameId;

/// What a step of a machine tells.
#[derive(Drop)]
pub enum Stepped {
    /// A step that says nothing.
    Went,
    /// The tree of a term.
    Said(Canon),
    /// A string.
    SaidText(NameId),
    Answered(Answer),
    /// No alternative is left; this is no step.
    Ended,
}
