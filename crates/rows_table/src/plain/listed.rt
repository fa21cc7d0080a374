//! The calls of a table on a plain list of rows.
use crate::plain::finding::{PlainRow, find_all, kids_of, left_of, place_of};
use mars_base::NoMemory;
use mars_canon::Tree;
use mars_tree::Graph;
use rows::{Stop, canon_of, kids_at, label_at, set_kid_at};
use std::alloc::Global;

/// What a call answers.
#[derive(Clone, Copy, Debug, PartialEq, Eq)]
pub enum PlainReply {
    /// The number of the root of a tree that was added.
    Root(u128),
    /// How many rows a sweep would leave, and how many nodes would then have none.
    Full { rows: u64, fresh: u64 },
    /// The number of the row that is a node's tree.
    Found(Option<u128>),
    /// Whether there was the row to be pinned.
    Pinned(bool),
    /// Whether there was the pin that goes.
    Unpinned(bool),
    /// How many rows went.
    Swept(u64),
    /// How many rows and pins there are, and the next number.
    Counted(u64, u64, u128),
    /// The numbers have come to their end.
    Ended,
}

/// A table: its rows, its pins, the next number and the limit.
#[derive(Drop)]
pub struct PlainTable {
    rows: Vec<PlainRow>,
    pub pins: Vec<(u32, u128)>,
    next: u128,
    cap: u64,
    alloc: Global,
}

/// How many nodes have no row.
fn fresh_in(found: &[Option<u128>]) -> u64 {
    let mut fresh: u64 = 0;
    for row in found {
        if row.is_none() {
            fresh = fresh.saturating_add(1);
        }
    }
    fresh
}

/// The number of each node: that of its row, or else the next one, counted up.
fn numbers_of(alloc: Global, found: &[Option<u128>], next: u128) -> Result<Vec<u128>, NoMemory> {
    let mut numbers = Vec::new(alloc);
    let mut after = next;
    for row in found {
        match row {
            Some(number) => numbers.push(*number)?,
            None => {
                numbers.push(after)?;
                after = after.wrapping_add(1);
            }
        }
    }
    Ok(numbers)
}

/// The number at a place.
fn number_at(numbers: &[u128], place: usize) -> u128 {
    match numbers.get(place) {
        Some(number) => *number,
        None => 0,
    }
}

/// A node as a row.
fn row_of(
    alloc: Global,
    graph: &Graph,
    node: usize,
    numbers: &[u128],
) -> Result<PlainRow, NoMemory> {
    let mut kids = Vec::new(alloc);
    for kid in kids_at(graph, node) {
        kids.push(number_at(numbers, *kid))?;
    }
    Ok(PlainRow {
        number: number_at(numbers, node),
        label: label_at(graph, node),
        kids,
    })
}

/// Adds a node for a row.
fn add_row(graph: &mut Graph, row: &PlainRow) -> Result<(), NoMemory> {
    match row.label {
        Some(label) => graph.add(label)?,
        None => graph.add_free()?,
    };
    Ok(())
}

/// Gives a node the kids of its row.
fn link_row(graph: &mut Graph, rows: &[PlainRow], node: usize) {
    for (place, kid) in kids_of(rows, node).iter().enumerate() {
        set_kid_at(graph, node, place, place_of(rows, *kid));
    }
}

/// The rows as the nodes of a graph.
fn graph_of(alloc: Global, rows: &[PlainRow]) -> Result<Graph, NoMemory> {
    let mut graph = Graph::new(alloc);
    for row in rows {
        add_row(&mut graph, row)?;
    }
    for node in 0..rows.len() {
        link_row(&mut graph, rows, node);
    }
    Ok(graph)
}

impl PlainTable {
    /// No rows and no pins, and at most `cap` rows later.
    pub fn new(alloc: Global, cap: u64) -> PlainTable {
        PlainTable {
            rows: Vec::new(alloc),
            pins: Vec::new(alloc),
            next: 0,
            cap,
            alloc,
        }
    }

    /// Adds a tree by its canonical graph.
    pub fn add(&mut self, graph: &Graph) -> Result<PlainReply, NoMemory> {
        let found = find_all(self.alloc, &self.rows, graph)?;
        if self.is_within(self.rows.len(), &found) {
            return self.grow(graph, &found);
        }
        self.add_to_left(graph)
    }

    /// Adds a tree that doesn't fit to what a sweep would leave.
    fn add_to_left(&mut self, graph: &Graph) -> Result<PlainReply, NoMemory> {
        let left = left_of(self.alloc, &self.rows, &self.pins)?;
        let found = find_all(self.alloc, &left, graph)?;
        if !self.is_within(left.len(), &found) {
            return Ok(PlainReply::Full {
                rows: left.len() as u64,
                fresh: fresh_in(&found),
            });
        }
        self.rows = left;
        self.grow(graph, &found)
    }

    /// Whether rows and fresh nodes together keep the limit.
    fn is_within(&self, rows: usize, found: &[Option<u128>]) -> bool {
        (rows as u64).saturating_add(fresh_in(found)) <= self.cap
    }

    /// The nodes that have no row become rows with the next numbers.
    fn grow(&mut self, graph: &Graph, found: &[Option<u128>]) -> Result<PlainReply, NoMemory> {
        let numbers = numbers_of(self.alloc, found, self.next)?;
        for node in 0..found.len() {
            if found[node].is_none() {
                self.rows.push(row_of(self.alloc, graph, node, &numbers)?)?;
            }
        }
        self.next = self.next.wrapping_add(u128::from(fresh_in(found)));
        Ok(PlainReply::Root(number_at(&numbers, 0)))
    }

    /// The number of the row that is a node's tree.
    pub fn find(&self, graph: &Graph, node: usize) -> Result<PlainReply, NoMemory> {
        let found = find_all(self.alloc, &self.rows, graph)?;
        match found.get(node) {
            Some(number) => Ok(PlainReply::Found(*number)),
            None => Ok(PlainReply::Found(None)),
        }
    }

    /// One more pin, where the row is there.
    pub fn pin(&mut self, who: u32, number: u128) -> Result<PlainReply, NoMemory> {
        let has = self.has(number);
        if has {
            self.pins.push((who, number))?;
        }
        Ok(PlainReply::Pinned(has))
    }

    /// Whether there is a row of this number.
    pub fn has(&self, number: u128) -> bool {
        place_of(&self.rows, number) < self.rows.len()
    }

    /// One pin less, where there is one.
    pub fn unpin(&mut self, who: u32, number: u128) -> PlainReply {
        for place in 0..self.pins.len() {
            if self.pins[place] == (who, number) {
                self.pins.remove(place);
                return PlainReply::Unpinned(true);
            }
        }
        PlainReply::Unpinned(false)
    }

    /// The rows that no walk from a pin meets go.
    pub fn sweep(&mut self) -> Result<PlainReply, NoMemory> {
        let left = left_of(self.alloc, &self.rows, &self.pins)?;
        let gone = self.rows.len().saturating_sub(left.len());
        self.rows = left;
        Ok(PlainReply::Swept(gone as u64))
    }

    /// The tree of a row, where it is there.
    pub fn tree_of(&self, alloc: Global, number: u128) -> Result<Option<Tree>, Stop> {
        let place = place_of(&self.rows, number);
        if place >= self.rows.len() {
            return Ok(None);
        }
        let graph = graph_of(alloc, &self.rows)?;
        let form = canon_of(alloc, &graph, &[place])?;
        Ok(Tree::of(alloc, &form)?)
    }

    /// How many rows and pins there are, and the next number.
    pub fn counts(&self) -> PlainReply {
        PlainReply::Counted(self.rows.len() as u64, self.pins.len() as u64, self.next)
    }
}
