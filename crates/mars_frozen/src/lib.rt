//! Goals that wait until a term is known.
#![tactic(auto)]

mod frozen;
mod laws;
mod mark;
mod waking;

pub use frozen::Frozen;
pub use laws::{frozen_lasts, frozen_marks, woken_once};
pub use mark::Mark;
