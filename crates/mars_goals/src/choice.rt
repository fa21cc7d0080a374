//! What a choice point has.
use crate::goal_list::GoalList;
use mars_store::NodeId;

/// A state of a machine that can be gone back to: the marks of its store, of its inequations and of its frozen goals, and
/// how many goal lists there were.
#[derive(Clone, Copy, Debug, PartialEq, Eq)]
pub struct MachineMark {
    pub store: mars_store::Mark,
    pub inequations: mars_dif::Mark,
    pub frozen: mars_frozen::Mark,
    pub lists: usize,
}

/// A call with rules that are still to be tried: the state in which it was made, its node, the goals after it, and the
/// first rule that wasn't tried, counted from 0.
#[derive(Clone, Copy, Debug, PartialEq, Eq)]
pub struct Choice {
    pub mark: MachineMark,
    pub call: NodeId,
    pub rest: GoalList,
    pub from: usize,
}
