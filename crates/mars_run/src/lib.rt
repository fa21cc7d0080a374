//! The derivation machine, one alternative at a time.
#![tactic(auto)]

mod copying;
mod machine;
mod saying;
mod searching;
mod stepping;

pub use machine::Machine;
