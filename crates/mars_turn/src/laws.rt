//! The definitions on a small history.
ghost use Rattle.mars_turn.specs.Examples.{Examples};

/// The definitions compute on a small history.
pub fn examples()
    ensures { Examples }
{}
