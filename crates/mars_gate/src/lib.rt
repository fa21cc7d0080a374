//! Jobs in threads over one book, and gates at their calls; the sessions of an input as jobs.
#![tactic(auto)]

mod closing;
mod crew;
mod gate_door;
mod job;
mod passes;
mod run;
mod sessions;
mod side_by_side;
mod worker;

pub use closing::ClosingReplies;
pub use job::{Advance, Job};
pub use run::{Closed, run_jobs};
pub use side_by_side::run_sessions;
