//! Laws of the definitions.
ghost use Rattle.mars_clauses.specs.WellFormed.{MakesWellFormed};

/// The rules and asks that fewer than 2^32 events make are well formed.
pub fn clauses_are_well_formed()
    ensures { MakesWellFormed }
{}
