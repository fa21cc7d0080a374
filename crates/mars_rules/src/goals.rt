//! Copies of rules in a store.
use mars_store::NodeId;
use sqlite_items::Items;

/// The goals of a copied body, in order.
pub type BodyGoals = Items<BodyGoal>;

/// A goal of a copied body: a call of a node, or a cut.
#[derive(Clone, Copy, Debug, PartialEq, Eq)]
pub enum BodyGoal {
    Call(NodeId),
    Cut,
}

/// A copy of a rule in a store, with variables of its own.
#[derive(Drop)]
pub struct Instance {
    pub head: NodeId,
    pub body: BodyGoals,
}
