//! Unification over rational trees, without occurs check.
#![tactic(auto)]

mod bits;
mod pairs;
mod unification;

pub use unification::{Unified, unify};
