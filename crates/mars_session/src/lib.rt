//! Sessions: what one writes and asks of the table, whole runs of several, and the world that they share.
#![tactic(auto)]

mod acts;
mod asking;
mod doors;
mod events;
mod forms;
mod laws;
mod lines;
mod maps;
mod named;
mod ran;
mod session;
mod text;
mod wishes;

pub use doors::event;
pub use events::{Event, Turned};
pub use laws::{
    alone_grows, alone_is_one, ask_writes_its_text, calls_are_allowed, event_is_of_the_world,
    event_is_one, events_advance, events_keep_entries, history_is_a_schedule, order_is_one,
    schedule_is_one, schedule_is_whole, session_rows, sessions_are_numbered, texts_grow,
    together_they_are_whole, uncut_is_whole, whole_goes_on,
};
pub use named::{Named, TreeForm};
pub use ran::Ran;
pub use session::Session;
