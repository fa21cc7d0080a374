//! A gate at which two sessions meet.
use crate::flags::{MOST_LOOKS, Notes};
use mars_io::Gate;
use std::sync::Wait;

/// Before its first call session 0 waits until session 1 comes to its first call, and session 1 until session 0 does. So
/// sessions that run one after the other are too late, in whatever order.
#[derive(Drop)]
pub struct MeetingGate {
    notes: Notes,
}

impl MeetingGate {
    /// A gate to which nobody has come.
    pub fn new() -> MeetingGate {
        MeetingGate::with_looks(MOST_LOOKS)
    }

    /// A gate to which nobody has come, at which a wait looks at a flag so often before it is too late.
    pub fn with_looks(looks: u64) -> MeetingGate {
        MeetingGate {
            notes: Notes::new(looks),
        }
    }

    /// Whether both sessions came before and after their first calls, and neither was too late.
    pub fn in_time(&self) -> bool {
        self.notes.in_time()
    }
}

impl Gate for MeetingGate {
    fn before<R: Wait>(&self, _rt: &R, who: u32, nth: u64) {
        self.notes.before.raise(who, nth);
        match (who, nth) {
            (0, 0) => self.notes.wait(&self.notes.before, 1),
            (1, 0) => self.notes.wait(&self.notes.before, 0),
            _ => {}
        }
    }

    fn after<R: Wait>(&self, _rt: &R, who: u32, nth: u64) {
        self.notes.after.raise(who, nth);
    }
}
