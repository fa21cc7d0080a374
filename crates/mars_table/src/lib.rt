//! The table of trees: each tree once, under a number, with the pins of its callers and the history of their calls.
#![tactic(auto)]

mod door;
mod entry;
mod laws;
mod table;

pub use door::{Door, FullDoor, TableDoor};
pub use entry::{Call, Entry, Handle, Reply};
pub use laws::{
    calls_are_own, calls_keep_sound, intern_takes_unmet, legal_is_live, legal_is_sound,
    next_is_bounded, pins_are_own, replies_are_determined,
};
pub use table::Table;
