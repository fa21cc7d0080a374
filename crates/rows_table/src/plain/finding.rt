//! A plain list of rows, by the words of its definition: what is found, and what a walk from a pin meets, is told by going through
//! the whole list.
use mars_base::NoMemory;
use mars_tree::{Graph, Label};
use rows::{kids_at, label_at};
use std::alloc::Global;

/// A row: its number, its label, and the numbers of its kids.
#[derive(Drop)]
pub(crate) struct PlainRow {
    pub(crate) number: u128,
    pub(crate) label: Option<Label>,
    pub(crate) kids: Vec<u128>,
}

/// The place of a number, past all rows where none has it.
pub(crate) fn place_of(rows: &[PlainRow], number: u128) -> usize {
    for place in 0..rows.len() {
        if rows[place].number == number {
            return place;
        }
    }
    rows.len()
}

/// The kids of the row at a place, none where there is no row.
pub(crate) fn kids_of(rows: &[PlainRow], place: usize) -> &[u128] {
    if place < rows.len() {
        &rows[place].kids
    } else {
        &[]
    }
}

/// The label of the row at a place.
fn label_of(rows: &[PlainRow], place: usize) -> Option<Label> {
    if place < rows.len() {
        rows[place].label
    } else {
        None
    }
}

/// Whether a row and a node show the same so far; `alike` has a place for each node, row by row.
fn are_alike(alike: &[bool], graph: &Graph, row: usize, node: usize) -> bool {
    match alike.get(row.wrapping_mul(graph.len()).wrapping_add(node)) {
        Some(alike) => *alike,
        None => false,
    }
}

/// Whether the kids of a row and of a node show the same so far.
fn are_kids_alike(
    rows: &[PlainRow],
    graph: &Graph,
    alike: &[bool],
    row: usize,
    node: usize,
) -> bool {
    let (kids, others) = (kids_of(rows, row), kids_at(graph, node));
    for place in 0..kids.len() {
        let other = match others.get(place) {
            Some(other) => *other,
            None => return false,
        };
        if !are_alike(alike, graph, place_of(rows, kids[place]), other) {
            return false;
        }
    }
    true
}

/// Puts last whether a row and each node have one label.
fn push_labels(
    rows: &[PlainRow],
    graph: &Graph,
    row: usize,
    alike: &mut Vec<bool>,
) -> Result<(), NoMemory> {
    for node in 0..graph.len() {
        alike.push(label_of(rows, row) == label_at(graph, node))?;
    }
    Ok(())
}

/// Whether each row and each node have one label.
fn by_labels(alloc: Global, rows: &[PlainRow], graph: &Graph) -> Result<Vec<bool>, NoMemory> {
    let mut alike = Vec::new(alloc);
    for row in 0..rows.len() {
        push_labels(rows, graph, row, &mut alike)?;
    }
    Ok(alike)
}

/// Puts last whether a row and each node show the same along paths of one kid more.
fn push_longer(
    rows: &[PlainRow],
    graph: &Graph,
    alike: &[bool],
    row: usize,
    longer: &mut Vec<bool>,
) -> Result<(), NoMemory> {
    for node in 0..graph.len() {
        let same = are_alike(alike, graph, row, node);
        longer.push(same && are_kids_alike(rows, graph, alike, row, node))?;
    }
    Ok(())
}

/// Whether each row and each node show the same along paths of one kid more.
fn longer_of(
    alloc: Global,
    rows: &[PlainRow],
    graph: &Graph,
    alike: &[bool],
) -> Result<Vec<bool>, NoMemory> {
    let mut longer = Vec::new(alloc);
    for row in 0..rows.len() {
        push_longer(rows, graph, alike, row, &mut longer)?;
    }
    Ok(longer)
}

/// Whether each row and each node show the same along all paths: along longer and longer ones, until nothing changes.
fn same_trees(alloc: Global, rows: &[PlainRow], graph: &Graph) -> Result<Vec<bool>, NoMemory> {
    let mut alike = by_labels(alloc, rows, graph)?;
    for _ in 0..alike.len() {
        let longer = longer_of(alloc, rows, graph, &alike)?;
        if longer == alike {
            return Ok(alike);
        }
        alike = longer;
    }
    Ok(alike)
}

/// The number of the first row that is the tree of a node.
fn number_of(rows: &[PlainRow], graph: &Graph, alike: &[bool], node: usize) -> Option<u128> {
    for row in 0..rows.len() {
        if are_alike(alike, graph, row, node) {
            return Some(rows[row].number);
        }
    }
    None
}

/// The number of the row that is the tree of each node, none where no row is.
pub(crate) fn find_all(
    alloc: Global,
    rows: &[PlainRow],
    graph: &Graph,
) -> Result<Vec<Option<u128>>, NoMemory> {
    let alike = same_trees(alloc, rows, graph)?;
    let mut found = Vec::new(alloc);
    for node in 0..graph.len() {
        found.push(number_of(rows, graph, &alike, node))?;
    }
    Ok(found)
}

/// Whether a pin is on a number.
fn is_pinned(pins: &[(u32, u128)], number: u128) -> bool {
    for pin in pins {
        if pin.1 == number {
            return true;
        }
    }
    false
}

/// Whether a row that is met has the number among its kids.
fn has_met_parent(rows: &[PlainRow], met: &[bool], number: u128) -> bool {
    for place in 0..rows.len() {
        if met.get(place) == Some(&true) && kids_of(rows, place).contains(&number) {
            return true;
        }
    }
    false
}

/// Whether each row is pinned.
fn pinned_rows(
    alloc: Global,
    rows: &[PlainRow],
    pins: &[(u32, u128)],
) -> Result<Vec<bool>, NoMemory> {
    let mut met = Vec::new(alloc);
    for row in rows {
        met.push(is_pinned(pins, row.number))?;
    }
    Ok(met)
}

/// Whether each row is met by a walk of one kid more.
fn met_longer(alloc: Global, rows: &[PlainRow], met: &[bool]) -> Result<Vec<bool>, NoMemory> {
    let mut longer = Vec::new(alloc);
    for place in 0..rows.len() {
        let is_met = met.get(place) == Some(&true);
        longer.push(is_met || has_met_parent(rows, met, rows[place].number))?;
    }
    Ok(longer)
}

/// Whether a walk from a pin meets each row: a longer and longer one, until nothing changes.
fn met_rows(alloc: Global, rows: &[PlainRow], pins: &[(u32, u128)]) -> Result<Vec<bool>, NoMemory> {
    let mut met = pinned_rows(alloc, rows, pins)?;
    for _ in 0..rows.len() {
        let longer = met_longer(alloc, rows, &met)?;
        if longer == met {
            return Ok(met);
        }
        met = longer;
    }
    Ok(met)
}

/// The same row once more.
fn copy_row(alloc: Global, row: &PlainRow) -> Result<PlainRow, NoMemory> {
    Ok(PlainRow {
        number: row.number,
        label: row.label,
        kids: Vec::from_slice(alloc, &row.kids)?,
    })
}

/// Those of the rows that are met.
fn copy_met(alloc: Global, rows: &[PlainRow], met: &[bool]) -> Result<Vec<PlainRow>, NoMemory> {
    let mut left = Vec::new(alloc);
    for place in 0..rows.len() {
        if met.get(place) == Some(&true) {
            left.push(copy_row(alloc, &rows[place])?)?;
        }
    }
    Ok(left)
}

/// The rows that a walk from a pin meets.
pub(crate) fn left_of(
    alloc: Global,
    rows: &[PlainRow],
    pins: &[(u32, u128)],
) -> Result<Vec<PlainRow>, NoMemory> {
    let met = met_rows(alloc, rows, pins)?;
    copy_met(alloc, rows, &met)
}
