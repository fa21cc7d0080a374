//! On systems alone: whether nodes can be made equal, and that a call has its children by rules.
#![tactic(auto)]

mod laws;

pub use laws::{children_exist, systems_decide, terms_written};
