//! How an ask begins in a store: its kept trees, its variables and its goals as nodes.
#![tactic(auto)]

mod loading;
mod starting;
mod writing;

pub use starting::{Started, start_ask};
