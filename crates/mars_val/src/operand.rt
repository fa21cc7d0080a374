//! What is known of the operands of an operation, and so of its result.
ghost use Rattle.std.specs.Prelude.{◌≡◌, ◌<◌, length, Some};
ghost use Rattle.mars_store.specs.System.{resolve};
ghost use Rattle.mars_val.specs.Number.{operation_label, root_of};
ghost use Rattle.mars_val.specs.NumberInside.{AreTheirNumbers, IsCombined, IsNext, IsToldOperand};

use crate::operation::{Operation, compute, operation_of};
use crate::terms::Terms;
use mars_store::{NodeId, Store};
use mars_tree::Label;

/// What is known of an operand: its number, that its end of links wasn't met, or that it is open.
#[derive(Clone, Copy, Debug)]
pub(crate) enum Operand {
    Known(i64),
    Unmet(NodeId),
    Open,
}

/// What is next at a term: its number, an operand to look at first, or that there is no number.
#[derive(Clone, Copy, Debug)]
pub(crate) enum Next {
    Number(i64),
    Wants(NodeId),
    Nothing,
}

/// What is next at a term.
pub(crate) fn next_of(store: &Store, terms: &Terms, values: &[Option<i64>], node: NodeId) -> Next
    requires inside { node < length store.now.nodes }
    requires sizes { length values.now ≡ length terms.now }
    requires numbers { AreTheirNumbers store.now terms.now values.now }
    ensures { IsNext store.now terms.now values.now node result }
{
    match store.root_label(node) {
        Some(Label::Int(number)) => Next::Number(number),
        Some(label) => match operation_of(label) {
            Some(operation) => apply(store, terms, values, node, operation),
            None => Next::Nothing,
        },
        None => Next::Nothing,
    }
}

/// What is next at an operation.
fn apply(
    store: &Store,
    terms: &Terms,
    values: &[Option<i64>],
    node: NodeId,
    operation: Operation,
) -> Next
    requires inside { node < length store.now.nodes }
    requires sizes { length values.now ≡ length terms.now }
    requires numbers { AreTheirNumbers store.now terms.now values.now }
    requires label { root_of store.now node ≡ Some (operation_label operation) }
    ensures { IsNext store.now terms.now values.now node result }
{
    let _mark = store.mark();
    let left = operand_of(store, terms, values, store.kid(node, 0));
    let right = operand_of(store, terms, values, store.kid(node, 1));
    combine(operation, left, right)
}

/// What is known of an operand.
fn operand_of(store: &Store, terms: &Terms, values: &[Option<i64>], kid: NodeId) -> Operand
    requires inside { kid < length store.now.nodes }
    requires sizes { length values.now ≡ length terms.now }
    ensures told { IsToldOperand store.now terms.now values.now kid result }
    ensures last { resolve store.now.bound (resolve store.now.bound kid) ≡ resolve store.now.bound kid }
{
    let end = store.deref(kid);
    match terms.find(end) {
        Some(place) => match values[place] {
            Some(number) => Operand::Known(number),
            None => Operand::Open,
        },
        None => Operand::Unmet(end),
    }
}

/// What two operands give.
fn combine(operation: Operation, left: Operand, right: Operand) -> Next
    ensures { IsCombined operation left right result }
{
    match left {
        Operand::Known(number) => combine_known(operation, number, right),
        Operand::Unmet(end) => Next::Wants(end),
        Operand::Open => Next::Nothing,
    }
}

/// What a number and an operand give.
fn combine_known(operation: Operation, left: i64, right: Operand) -> Next
    ensures { IsCombined operation (Operand.Known left) right result }
{
    match right {
        Operand::Known(number) => match compute(operation, left, number) {
            Some(number) => Next::Number(number),
            None => Next::Nothing,
        },
        Operand::Unmet(end) => Next::Wants(end),
        Operand::Open => Next::Nothing,
    }
}
