//! Trees of a row in one table: `intern TREE | TREE ..` gives the number of each.
use mars_base::NoMemory;
use mars_canon::Tree;
use mars_table::{Call, Handle, Reply, Table};
use mars_tree::Graph;
use rows::{Stop, canon_of, read_operands};
use std::alloc::Global;

/// The table has at most so many rows.
pub(crate) const LIMIT: u64 = 1_048_576;

/// What came of a tree.
pub(crate) enum Kept {
    Under(Handle),
    NotGround,
    TooLarge,
    Full,
}

/// Keeps a tree where there is room.
fn keep(table: &mut Table, who: u32, tree: Tree) -> Result<Kept, NoMemory> {
    // a `Tree` may be interned
    let _count = tree.len();
    match table.apply(who, Call::Intern(tree))? {
        Reply::Kept(handle) => Ok(Kept::Under(handle)),
        _ => Ok(Kept::Full),
    }
}

/// Keeps the tree of a node.
pub(crate) fn keep_root(
    alloc: Global,
    table: &mut Table,
    who: u32,
    graph: &Graph,
    roots: &[usize],
) -> Result<Kept, Stop> {
    let canon = canon_of(alloc, graph, roots)?;
    if !canon.ground() {
        return Ok(Kept::NotGround);
    }
    match Tree::of(alloc, &canon)? {
        Some(tree) => {
            let kept = keep(table, who, tree)?;
            Ok(kept)
        }
        None => Ok(Kept::TooLarge),
    }
}

/// Writes what came of a tree.
pub(crate) fn push_kept(kept: Kept, into: &mut Vec<u8>) -> Result<(), NoMemory> {
    let text = match kept {
        Kept::Under(Handle(number)) => format!(in *into.allocator(); "#{number} ")?,
        Kept::NotGround => format!(in *into.allocator(); "not ground, ")?,
        Kept::TooLarge => format!(in *into.allocator(); "too large, ")?,
        Kept::Full => format!(in *into.allocator(); "full, ")?,
    };
    into.extend_from_slice(text.as_bytes())?;
    Ok(())
}

/// Writes how many rows and pins there are.
pub(crate) fn push_counts(table: &Table, into: &mut Vec<u8>) -> Result<(), NoMemory> {
    let (rows, pins) = table.counts();
    let text = format!(in *into.allocator(); "rows {rows}, pins {pins}")?;
    into.extend_from_slice(text.as_bytes())?;
    Ok(())
}

/// Answers a row of trees.
pub(crate) fn answer_intern(alloc: Global, rest: &str, into: &mut Vec<u8>) -> Result<(), Stop> {
    let operands = read_operands(alloc, rest)?;
    let mut table = Table::new(alloc, LIMIT);
    for operand in &operands.all {
        let kept = keep_root(alloc, &mut table, 0, &operand.graph, &operand.roots)?;
        push_kept(kept, into)?;
    }
    Ok(push_counts(&table, into)?)
}
