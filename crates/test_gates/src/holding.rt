//! A gate that holds one session until another has called.
use crate::flags::{MOST_LOOKS, Notes};
use mars_io::Gate;
use std::sync::Wait;

/// Before its first call session 0 waits until the first call of session 1 is over. So what is written is what is written
/// where session 1 comes first.
#[derive(Drop)]
pub struct HoldingGate {
    notes: Notes,
}

impl HoldingGate {
    /// A gate to which nobody has come.
    pub fn new() -> HoldingGate {
        HoldingGate::with_looks(MOST_LOOKS)
    }

    /// A gate to which nobody has come, at which a wait looks at a flag so often before it is too late.
    pub fn with_looks(looks: u64) -> HoldingGate {
        HoldingGate {
            notes: Notes::new(looks),
        }
    }

    /// Whether both sessions came before and after their first calls, and session 0 wasn't too late.
    pub fn in_time(&self) -> bool {
        self.notes.in_time()
    }
}

impl Gate for HoldingGate {
    fn before<R: Wait>(&self, _rt: &R, who: u32, nth: u64) {
        self.notes.before.raise(who, nth);
        if (who, nth) == (0, 0) {
            self.notes.wait(&self.notes.after, 1);
        }
    }

    fn after<R: Wait>(&self, _rt: &R, who: u32, nth: u64) {
        self.notes.after.raise(who, nth);
    }
}
