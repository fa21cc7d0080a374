//! Laws of the definitions.
ghost use Rattle.mars_graphs.specs.MakingLaws.{MadeGraphSolves, MadeGraphIsSmall};

/// The graph that steps make is the solution of the system that they write.
pub fn graph_is_solution()
    ensures { MadeGraphSolves }
{}

/// Where a term is left, it has at most as many nodes as there are steps that are tokens of the text.
pub fn graph_is_small()
    ensures { MadeGraphIsSmall }
{}
