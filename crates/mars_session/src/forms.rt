//! What becomes of a tree that a session wants to keep.
ghost use Rattle.std.specs.Prelude.{◌<◌, length, IfOk};
ghost use Rattle.mars_session.specs.CommandActs.{IsTreeForm};

use crate::named::TreeForm;
use mars_base::NoMemory;
use mars_canon::{Tree, canon};
use mars_tree::Graph;
use std::alloc::Global;

/// The one form of a node's tree. It takes as long as `canon`.
fn form_inside(alloc: Global, graph: &Graph, root: usize) -> Result<TreeForm, NoMemory>
    requires { root < length graph.now }
    ensures { IfOk result (IsTreeForm graph.now root) }
{
    let canon = canon(alloc, graph, &[root])?;
    let count = canon.len();
    if !canon.ground() {
        return Ok(TreeForm::Free);
    }
    match Tree::of(alloc, &canon)? {
        Some(tree) => {
            // a `Tree` may be interned
            let _count = tree.len();
            Ok(TreeForm::Small(tree))
        }
        None => Ok(TreeForm::Large(count)),
    }
}

/// The one form of a node's tree; where there is no such node, it is free.
pub(crate) fn form_of(alloc: Global, graph: &Graph, root: usize) -> Result<TreeForm, NoMemory>
    ensures { IfOk result (IsTreeForm graph.now root) }
{
    if root < graph.len() {
        form_inside(alloc, graph, root)
    } else {
        Ok(TreeForm::Free)
    }
}
