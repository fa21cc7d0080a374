//! What is decided on systems alone, and that each call has its children.
ghost use Rattle.mars_children.specs.ChildrenLaws.{ChildrenExist};
ghost use Rattle.mars_children.specs.DecidingLaws.{EqualDecided, ImpliedDecided, DifsDecided, OpenDenoted};
ghost use Rattle.mars_children.specs.ExistingLaws.{TermWritten};

/// Whether two nodes can be made equal, whether they are implied equal, and whether inequations are solvable, is decided, so
/// that a definition may speak of what a step leads to before it is made. The inequations that are open for nodes are those
/// that are open for their terms.
pub fn systems_decide()
    ensures equal { EqualDecided }
    ensures implied { ImpliedDecided }
    ensures difs { DifsDecided }
    ensures allowed { OpenDenoted }
{}

/// A term of variables that are in use can be written into a system, on systems alone.
pub fn terms_written()
    ensures { TermWritten }
{}

/// A call whose alternative is denoted by a system has its children by rules, before any of them was tried.
pub fn children_exist()
    ensures { ChildrenExist }
{}
