//! What terms compute with.
ghost use Rattle.std.specs.Prelude.{◌≡◌, ℤ, MatchOption};
ghost use Rattle.mars_val.specs.declared.operation.Operation.{Operation};
ghost use Rattle.mars_val.specs.Number.{IsResult, operation_name, operation_label};

use mars_tree::Label;

/// The places of the operations' names among the built-in names.
const ADD: u32 = 7;

const SUB: u32 = 8;

const MUL: u32 = 9;

const DIV: u32 = 10;

const MOD: u32 = 11;

/// An operation on two numbers.
#[derive(Clone, Copy, Debug, PartialEq, Eq)]
pub enum Operation {
    Add,
    Sub,
    Mul,
    Div,
    Mod,
}

/// The operation whose name is at a place of the built-in names.
fn operation_at(place: u32) -> Option<Operation>
    ensures { MatchOption result ((operation : Operation) → operation_name operation ≡ place → ⊥) (λ operation. operation_name operation ≡ place) }
{
    match place {
        ADD => Some(Operation::Add),
        SUB => Some(Operation::Sub),
        MUL => Some(Operation::Mul),
        DIV => Some(Operation::Div),
        MOD => Some(Operation::Mod),
        _ => None,
    }
}

/// The operation of a label.
pub(crate) fn operation_of(label: Label) -> Option<Operation>
    ensures { MatchOption result ((operation : Operation) → label ≡ operation_label operation → ⊥) (λ operation. label ≡ operation_label operation) }
{
    match label {
        Label::Name { name, arity: 2 } => operation_at(name.0),
        _ => None,
    }
}

/// The result of an operation, where there is one in `i64`.
pub(crate) fn compute(operation: Operation, left: i64, right: i64) -> Option<i64>
    ensures { MatchOption result ((number : ℤ) → IsResult operation left right number → ⊥) (λ number. IsResult operation left right number) }
{
    match operation {
        Operation::Add => left.checked_add(right),
        Operation::Sub => left.checked_sub(right),
        Operation::Mul => left.checked_mul(right),
        Operation::Div => left.checked_div(right),
        Operation::Mod => left.checked_rem(right),
    }
}
