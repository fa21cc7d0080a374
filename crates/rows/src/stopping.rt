//! Why a row gets no answer of its own.
use mars_base::NoMemory;
use std::alloc::{AllocError, AllocFailed};

/// Why a row gets no answer of its own.
#[derive(Clone, Copy, Debug, PartialEq, Eq)]
pub enum Stop {
    /// Out of memory: the program ends.
    NoMemory,
    /// The reader refuses what is written.
    Refused,
    /// No row begins with this word.
    NoRow,
    /// The row takes other parts: trees, numbers or colons.
    OtherParts,
    /// A root is no node.
    NoNode,
    /// A free leaf, where the call takes none.
    FreeLeaf,
    /// A graph that is no tree.
    NoTree,
    /// More than the row takes.
    TooMany,
}

impl Stop {
    /// What is written in place of an answer.
    pub fn text(&self) -> &'static str {
        match self {
            Stop::NoMemory => "out of memory",
            Stop::Refused => "refused",
            Stop::NoRow => "no such row",
            Stop::OtherParts => "other parts are wanted",
            Stop::NoNode => "a root is no node",
            Stop::FreeLeaf => "a free leaf",
            Stop::NoTree => "no tree",
            Stop::TooMany => "too many",
        }
    }
}

impl From<NoMemory> for Stop {
    fn from(_error: NoMemory) -> Stop {
        Stop::NoMemory
    }
}

impl From<AllocError> for Stop {
    fn from(_error: AllocError) -> Stop {
        Stop::NoMemory
    }
}

impl<T: Drop> From<AllocFailed<T>> for Stop {
    fn from(_error: AllocFailed<T>) -> Stop {
        Stop::NoMemory
    }
}
