//! Derivations: what they are, and that each step, each run and each ask has one result.
#![tactic(auto)]

mod asked;
mod built_in;
mod ending;
mod laws;
mod stepped;

pub use asked::{Asked, Sayings};
pub use built_in::{BuiltIn, built_in_of};
pub use ending::Ending;
pub use laws::{derivation_is_one, ends_are_reached, step_is_one, telling_is_one};
pub use stepped::Stepped;
