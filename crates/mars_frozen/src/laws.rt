//! How long frozen pairs can be used, and undone to their marks; what wakes is determined.
ghost use Rattle.mars_frozen.specs.FreezingLaws.{FrozenStarts, FrozenAdds, FrozenGrows, FrozenMarkMade, FrozenMarkKept, FrozenMarksNest, LaterFollows, WokenOnce};

/// Frozen pairs can be used with their store from the start, after a pair was added, and while nodes and bindings are
/// added.
pub fn frozen_lasts()
    ensures starts { FrozenStarts }
    ensures adds { FrozenAdds }
    ensures grows { FrozenGrows }
{}

/// Frozen pairs can be undone to a mark until they are undone past it, and undoing to an inner mark first changes
/// nothing.
pub fn frozen_marks()
    ensures made { FrozenMarkMade }
    ensures kept { FrozenMarkKept }
    ensures nest { FrozenMarksNest }
    ensures follows { LaterFollows }
{}

/// Which goals wake, and which pairs wait on, is determined by the store and the pairs.
pub fn woken_once()
    ensures { WokenOnce }
{}
