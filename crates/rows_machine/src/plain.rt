//! Derivations as they are defined, on lists that are copied: all children of a call at once, and what the equations say found
//! anew at each step.
mod alternatives;
mod answers;
mod equations;
mod goals;
mod machine;
mod written;

pub(crate) use machine::{PlainEnd, PlainMachine, PlainSaid};
pub(crate) use written::{PlainRule, plain_ask, plain_rules};
