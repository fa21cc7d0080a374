//! Flags that threads raise and look at.
use std::sync::atomic::{AtomicBool, Ordering};
use std::thread;

/// How often a wait looks at a flag before it goes on, where nothing else is said.
pub(crate) const MOST_LOOKS: u64 = 10_000_000;

/// One flag for session 0 and one for session 1. Once raised, a flag stays up.
#[derive(Drop)]
pub(crate) struct Flags {
    zero: AtomicBool,
    one: AtomicBool,
}

impl Flags {
    /// No flag is up.
    pub(crate) fn new() -> Flags {
        Flags {
            zero: AtomicBool::new(false),
            one: AtomicBool::new(false),
        }
    }

    /// Raises the flag of session 0 or 1, where the call is its first one.
    pub(crate) fn raise(&self, who: u32, nth: u64) {
        match (who, nth) {
            (0, 0) => self.zero.store(true, Ordering::SeqCst),
            (1, 0) => self.one.store(true, Ordering::SeqCst),
            _ => {}
        }
    }

    /// Whether both flags are up.
    pub(crate) fn both(&self) -> bool {
        self.zero.load(Ordering::SeqCst) && self.one.load(Ordering::SeqCst)
    }

    /// Waits until the flag of session 0 is up, or of session 1 for any other number, for so many looks at the most. False
    /// where that was too late.
    pub(crate) fn wait(&self, who: u32, looks: u64) -> bool {
        let flag = if who == 0 { &self.zero } else { &self.one };
        for _ in 0..looks {
            if flag.load(Ordering::SeqCst) {
                return true;
            }
            thread::yield_now();
        }
        false
    }
}

/// What a gate was told of the first call of each session, and whether a wait was too long.
#[derive(Drop)]
pub(crate) struct Notes {
    pub(crate) before: Flags,
    pub(crate) after: Flags,
    late: AtomicBool,
    /// How often a wait looks at a flag.
    looks: u64,
}

impl Notes {
    /// Nothing has come yet. A wait looks at a flag so often.
    pub(crate) fn new(looks: u64) -> Notes {
        Notes {
            before: Flags::new(),
            after: Flags::new(),
            late: AtomicBool::new(false),
            looks,
        }
    }

    /// Waits for the flag of a session, and notes where that was too late.
    pub(crate) fn wait(&self, flags: &Flags, who: u32) {
        if !flags.wait(who, self.looks) {
            self.late.store(true, Ordering::SeqCst);
        }
    }

    /// Whether the first calls of sessions 0 and 1 both came before and after, and no wait was too long.
    pub(crate) fn in_time(&self) -> bool {
        self.before.both() && self.after.both() && !self.late.load(Ordering::SeqCst)
    }
}
