//! Rules as nodes, with the places of their goals.
use mars_matching::Template;

/// A goal of a rule's body: a call of the term at a place, or a cut.
#[derive(Clone, Copy, Debug)]
pub enum FlatGoal {
    Call(usize),
    Cut,
}

/// A rule's head and body as nodes, and its goals as places of these.
#[derive(Drop)]
pub struct FlatRule {
    pub template: Template,
    pub goals: Vec<FlatGoal>,
}
