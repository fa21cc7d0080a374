//! The number of a term of a few nodes, found without memory: an integer, or an operation over integers or over
//! operations on integers.
ghost use Rattle.std.specs.Prelude.{◌≡◌, ◌<◌, ◌∷◌, [], length, Some};
ghost use Rattle.std.specs.Option.{IfSome};
ghost use Rattle.mars_tree.specs.Graph.{kids_of, arity_at};
ghost use Rattle.mars_store.specs.System.{resolve};
ghost use Rattle.mars_val.specs.Number.{HasNumber, operation_label, root_of};

use crate::operation::{Operation, compute, operation_of};
use mars_store::{NodeId, Store};
use mars_tree::Label;

/// The number of a term that is an integer, or an operation whose operands are integers or operations over two integers,
/// looked at without memory. `None` where it is neither, or has no number. It follows the links of seven nodes at most.
pub(crate) fn direct(store: &Store, node: NodeId) -> Option<i64>
    requires { node < length store.now.nodes }
    ensures { IfSome result (λ number. HasNumber store.now node number) }
{
    let end = store.deref(node);
    match store.label(end)? {
        Label::Int(number) => Some(number),
        label => over_operands(store, end, operation_of(label)?),
    }
}

/// The number of an operation, where each operand is an integer or an operation over two integers.
fn over_operands(store: &Store, node: NodeId, operation: Operation) -> Option<i64>
    requires inside { node < length store.now.nodes }
    requires label { root_of store.now node ≡ Some (operation_label operation) }
    ensures { IfSome result (λ number. HasNumber store.now node number) }
{
    let (left, right) = operands(store, node);
    compute(
        operation,
        operand_number(store, left)?,
        operand_number(store, right)?,
    )
}

/// The number of an operand that is an integer or an operation over two integers.
fn operand_number(store: &Store, node: NodeId) -> Option<i64>
    requires { node < length store.now.nodes }
    ensures { IfSome result (λ number. HasNumber store.now node number) }
{
    let end = store.deref(node);
    match store.label(end)? {
        Label::Int(number) => Some(number),
        label => over_integers(store, end, operation_of(label)?),
    }
}

/// The number of an operation over two integers.
fn over_integers(store: &Store, node: NodeId, operation: Operation) -> Option<i64>
    requires inside { node < length store.now.nodes }
    requires label { root_of store.now node ≡ Some (operation_label operation) }
    ensures { IfSome result (λ number. HasNumber store.now node number) }
{
    let (left, right) = operands(store, node);
    compute(
        operation,
        integer_at(store, left)?,
        integer_at(store, right)?,
    )
}

/// The integer that a term is.
fn integer_at(store: &Store, node: NodeId) -> Option<i64>
    requires { node < length store.now.nodes }
    ensures { IfSome result (λ number. HasNumber store.now node number) }
{
    match store.root_label(node)? {
        Label::Int(number) => Some(number),
        _ => None,
    }
}

/// The two kids of a term whose label has two.
fn operands(store: &Store, node: NodeId) -> (NodeId, NodeId)
    requires inside { node < length store.now.nodes }
    requires two { arity_at (root_of store.now node) ≡ 2 }
    ensures kids { kids_of store.now.nodes (resolve store.now.bound node) ≡ result.0 ∷ result.1 ∷ [] }
    ensures left { result.0 < length store.now.nodes }
    ensures right { result.1 < length store.now.nodes }
{
    let _mark = store.mark();
    (store.kid(node, 0), store.kid(node, 1))
}
