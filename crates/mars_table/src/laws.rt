//! Laws of histories.
ghost use Rattle.mars_table.specs.HistoryLaws.{LegalIsLive, LegalIsSound, CallsKeepSound, InternTakesUnmet, PinsAreOwn, CallsAreOwn, RepliesAreDetermined, NextIsBounded};

/// A legal history is live: numbers agree exactly where trees do, trees last, sweeps are exact.
pub fn legal_is_live()
    ensures { LegalIsLive }
{}

/// The table after a legal history is sound.
pub fn legal_is_sound()
    ensures { LegalIsSound }
{}

/// Each call keeps a table sound.
pub fn calls_keep_sound()
    ensures { CallsKeepSound }
{}

/// A row that interning takes away is met by no walk from a pin.
pub fn intern_takes_unmet()
    ensures { InternTakesUnmet }
{}

/// Whether a caller has a pin depends on its own entries alone.
pub fn pins_are_own()
    ensures { PinsAreOwn }
{}

/// Whether a caller may make a call depends on its own entries alone.
pub fn calls_are_own()
    ensures { CallsAreOwn }
{}

/// A call has one reply.
pub fn replies_are_determined()
    ensures { RepliesAreDetermined }
{}

/// The next number is at most the most nodes of a tree times the calls that were made.
pub fn next_is_bounded()
    ensures { NextIsBounded }
{}
