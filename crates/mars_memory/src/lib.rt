//! The memory of a derivation machine: one alternative, whose children by rules and by built-ins are made in place.
#![tactic(auto)]

mod built_ins;
mod changes;
mod laws;
mod lists;
mod memory;
mod settling;
mod taking;
mod telling;

pub use built_ins::call_built_in;
pub use laws::memory_marks;
pub use memory::Memory;
pub use taking::take_rule;
pub use telling::{tell_answer, tell_text, tell_tree};
