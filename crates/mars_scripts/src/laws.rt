//! Laws of the definitions.
ghost use Rattle.mars_scripts.specs.WellFormed.{MakesWellFormedInput, MakesTold, TellsTree};
ghost use Rattle.mars_scripts.specs.Sizes.{MakesSmallInput, MakesFewSessions};

use mars_clauses::clauses_are_well_formed;

/// What fewer than 2^32 events say of an input is well formed.
pub fn inputs_are_well_formed()
    ensures { MakesWellFormedInput }
{
    clauses_are_well_formed();
}

/// The graph of a tree is what the steps make that its events tell.
pub fn steps_are_told()
    ensures { MakesTold }
{}

/// Up to the end of a command, its tree is what its events tell.
pub fn trees_are_told()
    ensures { TellsTree }
{}

/// The trees that events put have together at most a node a token.
pub fn inputs_are_small()
    ensures { MakesSmallInput }
{}

/// There are at most as many sessions as tokens.
pub fn inputs_have_few_sessions()
    ensures { MakesFewSessions }
{}
