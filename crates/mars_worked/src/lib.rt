//! Derivations of small asks, worked out on the definitions.
#![tactic(auto)]

mod laws;

pub use laws::derivation_rows;
