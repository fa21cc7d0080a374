//! The world of the sessions on one thread; how sessions start, and how their run is told.
#![tactic(auto)]

mod closing;
mod laws;
mod world;

pub use closing::{any_cut, push_last_line, push_texts};
pub use laws::{
    histories_are_legal, others_cut_none, world_follows_events, world_run_is_whole,
    world_texts_grow,
};
pub use world::{World, start_sessions};
