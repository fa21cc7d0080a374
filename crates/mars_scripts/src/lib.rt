//! What the events of an input say: its rules, its sessions and their commands, and the trees that it puts.
#![tactic(auto)]

mod laws;
mod scripts;
mod trees;

pub use laws::{
    inputs_are_small, inputs_are_well_formed, inputs_have_few_sessions, steps_are_told,
    trees_are_told,
};
pub use scripts::ScriptMaker;
pub use trees::TreeMaker;
