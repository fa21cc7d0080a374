//! The calls of `Rows`, each with its condition tested first.
use crate::plain::PlainReply;
use mars_base::NoMemory;
use mars_canon::Tree;
use mars_rows::{Added, Rows};

/// Adds a tree. At a number past 2^126 nothing is added.
pub fn add(rows: &mut Rows, tree: &Tree) -> Result<PlainReply, NoMemory> {
    if rows.next_number() >= 1 << 126 {
        return Ok(PlainReply::Ended);
    }
    match rows.add(tree)? {
        Added::Root(number) => Ok(PlainReply::Root(number)),
        Added::Full { rows, fresh } => Ok(PlainReply::Full { rows, fresh }),
    }
}

/// The number of the row that is a node's tree.
pub fn find(rows: &Rows, tree: &Tree, node: usize) -> Result<PlainReply, NoMemory> {
    if node < tree.len() {
        Ok(PlainReply::Found(rows.find(tree, node)?))
    } else {
        Ok(PlainReply::Found(None))
    }
}

/// One more pin, where the row is there.
pub fn pin(rows: &mut Rows, who: u32, number: u128) -> Result<PlainReply, NoMemory> {
    if !rows.has(number) {
        return Ok(PlainReply::Pinned(false));
    }
    rows.pin(who, number)?;
    Ok(PlainReply::Pinned(true))
}

/// One pin less, where there is one.
pub fn unpin(rows: &mut Rows, who: u32, number: u128) -> PlainReply {
    if !rows.is_pinned(who, number) {
        return PlainReply::Unpinned(false);
    }
    rows.unpin(who, number);
    PlainReply::Unpinned(true)
}

/// The rows that no walk from a pin meets go.
pub fn sweep(rows: &mut Rows) -> Result<PlainReply, NoMemory> {
    Ok(PlainReply::Swept(rows.sweep()?))
}

/// How many rows and pins there are, and the next number.
pub fn counts(rows: &Rows) -> PlainReply {
    let (count, pins) = rows.counts();
    PlainReply::Counted(count, pins, rows.next_number())
}

/// The tree of a row, where it is there.
pub fn tree_of(rows: &Rows, number: u128) -> Result<Option<Tree>, NoMemory> {
    if !rows.has(number) {
        return Ok(None);
    }
    Ok(Some(rows.graph_of(number)?))
}
