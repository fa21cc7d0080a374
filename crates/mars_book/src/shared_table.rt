//! A table as a value that threads take one after the other.
use mars_table::{Entry, Table};
use mars_turn::Listed;

/// A table that threads call by turns: its list is the history, and what stays the same is the row limit.
#[derive(Drop)]
pub struct SharedTable {
    pub(crate) table: Table,
}

impl Listed for SharedTable {
    type Item = Entry;

    ghost list = { λ s. s.table.history };

    ghost fixed = { λ s. s.table.cap };

    ghost by = { λ e. e.who };

    fn caller(item: &Entry) -> u32 {
        item.who
    }
}
