//! Gates for tests of sessions in threads: one at which two sessions meet, one that holds a session until another has
//! called, and one at which calls take their time, unevenly. None waits for ever.

#![tactic(auto)]

mod flags;
mod holding;
mod meeting;
mod uneven;

pub use holding::HoldingGate;
pub use meeting::MeetingGate;
pub use uneven::UnevenGate;
