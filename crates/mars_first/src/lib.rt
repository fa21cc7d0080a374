//! The key of a component from its first node, by which components of trees are found again.
#![tactic(auto)]

mod apart;
mod component;
mod items;
mod laws;
mod links;
mod narrowing;
mod places;
mod stages;

pub use items::FirstKey;
pub use laws::first_keys_tell;
pub use narrowing::first;
