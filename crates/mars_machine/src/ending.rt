//! How an ask ends.

/// How an ask ends.
#[derive(Clone, Copy, Debug, PartialEq, Eq)]
pub enum Ending {
    /// No alternative is left.
    End,
    /// As many answers came as were wanted.
    Enough,
    /// The steps are used up.
    Stopped,
}
