//! A list of entries with a limit: a small value for a turn.
ghost use Rattle.std.specs.Prelude.{◌≡◌, ◌∷◌, [], ◌++◌, IfOk, OnOk, OnErr};

use mars_base::NoMemory;
use mars_turn::Listed;
use std::alloc::Global;

/// What a caller has put.
#[derive(Clone, Copy, Debug, PartialEq, Eq)]
pub(crate) struct Entry {
    pub(crate) who: u32,
    pub(crate) item: u64,
}

/// What was put, in order.
#[derive(Drop)]
pub(crate) struct History {
    pub(crate) entries: Vec<Entry>,
    pub(crate) limit: u64,
}

impl Listed for History {
    type Item = Entry;

    ghost list = { λ h. h.entries.items };

    ghost fixed = { λ h. h.limit };

    ghost by = { λ e. e.who };

    fn caller(item: &Entry) -> u32 {
        item.who
    }
}

impl History {
    /// A history without entries.
    pub(crate) fn new(alloc: Global, limit: u64) -> History
        ensures { result.entries.items ≡ [] }
    {
        History {
            entries: Vec::new(alloc),
            limit,
        }
    }

    /// Adds an entry at the end.
    pub(crate) fn append(&mut self, who: u32, item: u64) -> Result<(), NoMemory>
        ensures ok { OnOk result (self.new.entries.items ≡ self.old.entries.items ++ record { who = who; item = item } ∷ []) }
        ensures err { OnErr result (self.new.entries.items ≡ self.old.entries.items) }
        ensures limit { self.new.limit ≡ self.old.limit }
    {
        self.entries.reserve(1)?;
        self.entries.push_reserved(Entry { who, item });
        Ok(())
    }

    /// The place of the first entry with this item, or the number of entries where there is none.
    pub(crate) fn place_of(&self, item: u64) -> usize {
        for place in 0..self.entries.len() {
            if self.entries[place].item == item {
                return place;
            }
        }
        self.entries.len()
    }
}

/// How many entries a caller has.
pub(crate) fn count_of(entries: &[Entry], who: u32) -> usize {
    let mut count: usize = 0;
    for entry in entries {
        if entry.who == who {
            count = count.saturating_add(1);
        }
    }
    count
}

/// How many entries a caller has, where their items are 0, 1, 2 and so on.
pub(crate) fn counted(entries: &[Entry], who: u32) -> Option<u64> {
    let mut next = 0_u64;
    for entry in entries {
        if entry.who == who {
            if entry.item != next {
                return None;
            }
            next = next.saturating_add(1);
        }
    }
    Some(next)
}
