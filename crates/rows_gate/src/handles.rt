//! Which trees the entries of a history keep, and under which numbers.
use mars_base::NoMemory;
use mars_canon::Tree;
use mars_table::{Call, Entry, Handle, Reply};
use std::alloc::Global;

/// The tree that an entry keeps, and its number.
fn kept(entry: &Entry) -> Option<(&Tree, Handle)> {
    match (&entry.call, &entry.reply) {
        (Call::Intern(tree), Reply::Kept(handle)) => Some((tree, *handle)),
        _ => None,
    }
}

/// Whether two entries keep one tree.
fn keep_one_tree(one: &Entry, other: &Entry) -> bool {
    match (kept(one), kept(other)) {
        (Some((tree, _)), Some((other_tree, _))) => tree == other_tree,
        _ => false,
    }
}

/// Whether two entries that keep trees keep one tree exactly where they were told one number.
fn agree(one: &Entry, other: &Entry) -> bool {
    match (kept(one), kept(other)) {
        (Some((tree, handle)), Some((other_tree, other_handle))) => {
            (tree == other_tree) == (handle == other_handle)
        }
        _ => true,
    }
}

/// Whether an entry keeps a tree that none of these entries keeps.
fn is_first(history: &[Entry], firsts: &[usize], entry: &Entry) -> bool {
    for place in firsts {
        if let Some(first) = history.get(*place) {
            if keep_one_tree(first, entry) {
                return false;
            }
        }
    }
    kept(entry).is_some()
}

/// The places of the entries that keep a tree which no entry before keeps.
pub(crate) fn first_entries(alloc: Global, history: &[Entry]) -> Result<Vec<usize>, NoMemory> {
    let mut firsts = Vec::new(alloc);
    for (place, entry) in history.iter().enumerate() {
        if is_first(history, &firsts, entry) {
            firsts.push(place)?;
        }
    }
    Ok(firsts)
}

/// Whether an entry agrees with each of these.
fn agrees_with(history: &[Entry], firsts: &[usize], entry: &Entry) -> bool {
    for place in firsts {
        if let Some(first) = history.get(*place) {
            if !agree(first, entry) {
                return false;
            }
        }
    }
    true
}

/// Whether each tree has one number in all entries, and no two trees have the same. `firsts` are the places of the entries
/// that keep a tree first.
pub(crate) fn has_one_handle_each(history: &[Entry], firsts: &[usize]) -> bool {
    for entry in history {
        if !agrees_with(history, firsts, entry) {
            return false;
        }
    }
    true
}
