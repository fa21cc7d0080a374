//! How long a memory can be undone to a mark.
ghost use Rattle.mars_memory.specs.MemoryLaws.{MemoryMarkKept, LaterMemoryFollows};

/// A memory can be undone to a mark as long as its parts are only added to.
pub fn memory_marks()
    ensures kept { MemoryMarkKept }
    ensures follows { LaterMemoryFollows }
{}
