//! What holds of all solutions of a system. The crates above rest on these laws.
ghost use Rattle.mars_store.specs.Growing.{EquationSolved, NodeSystem, NodeSolved, NodeLast, NodeContinued, OlderSolved, LargerSolved, TreesStay};
ghost use Rattle.mars_store.specs.Laws.{PlainSolves, PlainDecides, NewNames, FreeUnforced, DifsIndependent};
ghost use Rattle.mars_store.specs.Marks.{MarkMade, MarkKept, MarksNest};
ghost use Rattle.mars_store.specs.Shown.{LabelsShown, LeavesShown, SameShown};

/// The plain valuation is a solution, whichever names its variables have, so no free variable's label is forced.
pub fn plain_solves()
    ensures solves { PlainSolves }
    ensures unforced { FreeUnforced }
{}

/// What the plain valuation makes equal is equal in every solution, so inequations are independent of each other.
pub fn plain_decides()
    ensures names { NewNames }
    ensures decides { PlainDecides }
    ensures independent { DifsIndependent }
{}

/// A label is forced, and a place is in every solution, exactly where the one graph of a system shows it.
pub fn forced_shown()
    ensures labels { LabelsShown }
    ensures leaves { LeavesShown }
{}

/// Two nodes are implied equal exactly where the one graph of a system shows the same.
pub fn implied_shown()
    ensures { SameShown }
{}

/// A store can be undone to a mark until it is undone past it, and undoing to an inner mark first changes nothing.
pub fn marks_nest()
    ensures made { MarkMade }
    ensures kept { MarkKept }
    ensures nest { MarksNest }
{}

/// The solutions after an equation are exactly those of before that solve it.
pub fn equation_solved()
    ensures { EquationSolved }
{}

/// The solutions after a node are exactly those of before with one tree more: the node's label over its kids' trees,
/// and for a variable any tree. Each solution of before has such a one, in a graph that was only added to.
pub fn node_solved()
    ensures system { NodeSystem }
    ensures solved { NodeSolved }
    ensures last { NodeLast }
    ensures continued { NodeContinued }
{}

/// A solution of a system that has grown is one of the older system, too, and stays one in a larger graph.
pub fn older_solved()
    ensures older { OlderSolved }
    ensures larger { LargerSolved }
    ensures trees { TreesStay }
{}
