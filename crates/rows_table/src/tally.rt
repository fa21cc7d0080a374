//! How often each kind of reply came.

/// What a call came to.
#[derive(Clone, Copy, Debug, PartialEq, Eq)]
pub enum Kind {
    /// A tree got new rows.
    Kept,
    /// A tree had its rows.
    Again,
    /// A tree went into what a sweep left.
    BySweep,
    /// A tree didn't fit.
    Full,
    Pinned,
    Shown,
    Dropped,
    /// A sweep took rows away.
    Swept,
    /// A sweep took none.
    Stayed,
    Counted,
    /// The caller had no pin.
    NoPin,
}

/// How often each kind came.
#[derive(Clone, Copy, Debug, PartialEq, Eq)]
pub struct Tally {
    kept: u32,
    again: u32,
    by_sweep: u32,
    full: u32,
    pinned: u32,
    shown: u32,
    dropped: u32,
    swept: u32,
    stayed: u32,
    counted: u32,
    no_pin: u32,
}

impl Tally {
    /// None came yet.
    pub fn new() -> Tally {
        Tally {
            kept: 0,
            again: 0,
            by_sweep: 0,
            full: 0,
            pinned: 0,
            shown: 0,
            dropped: 0,
            swept: 0,
            stayed: 0,
            counted: 0,
            no_pin: 0,
        }
    }

    /// Counts one.
    pub fn count(&mut self, kind: Kind) {
        let count = match kind {
            Kind::Kept => &mut self.kept,
            Kind::Again => &mut self.again,
            Kind::BySweep => &mut self.by_sweep,
            Kind::Full => &mut self.full,
            Kind::Pinned => &mut self.pinned,
            Kind::Shown => &mut self.shown,
            Kind::Dropped => &mut self.dropped,
            Kind::Swept => &mut self.swept,
            Kind::Stayed => &mut self.stayed,
            Kind::Counted => &mut self.counted,
            Kind::NoPin => &mut self.no_pin,
        };
        *count = count.saturating_add(1);
    }

    /// Whether each kind came a hundred times.
    pub fn is_full(&self) -> bool {
        let counts = [
            self.kept,
            self.again,
            self.by_sweep,
            self.full,
            self.pinned,
            self.shown,
            self.dropped,
            self.swept,
            self.stayed,
            self.counted,
            self.no_pin,
        ];
        for count in counts {
            if count < 100 {
                return false;
            }
        }
        true
    }
}
