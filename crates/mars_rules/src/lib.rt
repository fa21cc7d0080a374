//! Rule bases: which rules a call may take, and copies of rules in a store.
#![tactic(auto)]

mod base;
mod copying;
mod flat;
mod goals;
mod heads;
mod keys;
mod laws;
mod laying;
mod places;

pub use base::RuleBase;
pub use flat::{FlatGoal, FlatRule};
pub use goals::{BodyGoal, BodyGoals, Instance};
pub use laws::rules_are_taken;
