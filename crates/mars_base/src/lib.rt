//! What all other crates use: the error for out of memory, and the count of faults.
#![tactic(auto)]

mod faults;
mod no_memory;
mod numbers;

pub use faults::Faults;
pub use no_memory::NoMemory;
pub use numbers::{NumberPart, Numbers};
