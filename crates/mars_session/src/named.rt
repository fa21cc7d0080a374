//! Names that a session has, and what becomes of a tree that it wants to keep.
use mars_canon::Tree;
use mars_table::Handle;
use mars_tree::NameId;

/// A name of a session, with its tree and the number of the tree's row.
#[derive(Drop)]
pub struct Named {
    pub name: NameId,
    pub tree: Tree,
    pub handle: Handle,
}

/// The tree of a node, or why it can't be kept.
#[derive(Drop)]
pub enum TreeForm {
    /// The tree has a free leaf.
    Free,
    /// The tree has this many distinct subtrees, more than a `Tree` may have nodes.
    Large(usize),
    /// The tree, in its one form.
    Small(Tree),
}
