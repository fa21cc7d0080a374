//! Rows with pins: each tree once, under a number that is never given again.
ghost use Rattle.std.specs.Prelude.{◌≡◌, ◌↔◌, ℕ, ◌+◌, ◌-◌, ◌≤◌, ◌<◌, ◌^◌, length, not, nat_lt, false, IfOk, OnOk, OnErr, IsOk, IsTrue, Contains};
ghost use Rattle.mars_canon.specs.Tree.{IsTree};
ghost use Rattle.std.specs.List.{remove};
ghost use Rattle.mars_rows.specs.Finding.{find_row};
ghost use Rattle.mars_rows.specs.Rows.{HasRow, IsRowOf};
ghost use Rattle.mars_rows.specs.Object.{empty_table, sweep, swept as swept_count};
ghost use Rattle.mars_rows.specs.RowsObject.{AddsTree, HasRoot, fits, with_pin, without_pin, without_first};
ghost use Rattle.mars_rows.specs.Sound.{IsSound};

use crate::growth::{grow, number_nodes};
use crate::index::find_number;
use crate::marks::swept;
use crate::stock::{Stock, is_among, place_of};
use indexmap::IndexMap;
use mars_base::NoMemory;
use mars_canon::{Tree, canon};
use mars_tree::Graph;
use std::alloc::Global;
use std::marker::Model;

/// What adding a tree answers: the number of its root, or that rows and fresh nodes exceed the limit.
#[derive(Clone, Copy, Debug, PartialEq, Eq)]
pub enum Added {
    /// The number of the tree's root.
    Root(u128),
    /// How many rows a sweep would leave, and how many nodes of the tree would then have none.
    Full { rows: u64, fresh: u64 },
}

/// Trees under numbers, each tree once, and the pins of callers on them.
#[derive(Drop)]
pub struct Rows {
    stock: Stock,
    pins: Vec<(u32, u128)>,
    next: u128,
    cap: u64,
    alloc: Global,
}

impl Model for Rows {
    ghost use Rattle.mars_rows.specs.RowsObject.{RowsObject};

    ghost Value = { RowsObject };

    ghost use Rattle.mars_rows.specs.StoreInside.{rows_object_of, IsHeld};

    ghost view = { rows_object_of };

    ghost invariant = { IsHeld };
}

impl Rows {
    /// No rows and no pins, with room for none, and at most `cap` rows later.
    pub fn new(alloc: Global, cap: u64) -> Rows
        ensures { result.table ≡ empty_table cap }
    {
        Rows {
            stock: Stock {
                nodes: Graph::new(alloc),
                numbers: Vec::new(alloc),
                index: IndexMap::new(alloc),
            },
            pins: Vec::new(alloc),
            next: 0,
            cap,
            alloc,
        }
    }

    /// How many rows and how many pins there are. Takes no memory.
    pub fn counts(&self) -> (u64, u64)
        ensures rows { result.0 ≡ length self.now.table.rows }
        ensures pins { result.1 ≡ length self.now.table.pins }
        ensures sound { IsSound self.now.table }
    {
        (self.stock.nodes.len() as u64, self.pins.len() as u64)
    }

    /// The number that the next row gets. Takes no memory.
    pub fn next_number(&self) -> u128
        ensures { result ≡ self.now.table.next }
    {
        self.next
    }

    /// Whether there is a row of this number. Takes no memory. A logarithm of the rows.
    pub fn has(&self, id: u128) -> bool
        ensures { IsTrue result ↔ HasRow self.now.table.rows id }
    {
        is_among(&self.stock.numbers, id)
    }

    /// Whether `who` has a pin on the row of this number. Takes no memory. Linear in the pins.
    pub fn is_pinned(&self, who: u32, id: u128) -> bool
        ensures { IsTrue result ↔ Contains self.now.table.pins (who, id) }
    {
        has_pin(&self.pins, who, id)
    }

    /// The tree of a row. It costs what the canonical graph of what the row reaches costs. The error is out of memory
    /// alone.
    pub fn graph_of(&self, id: u128) -> Result<Tree, NoMemory>
        requires { HasRow self.now.table.rows id }
        ensures tree { IfOk result (λ tree. IsTree tree) }
        ensures row { IfOk result (λ tree. IsRowOf self.now.table.rows id tree 0) }
    {
        let place = place_of(&self.stock.numbers, id);
        let form = canon(self.alloc, &self.stock.nodes, &[place])?;
        let _count = form.len();
        match Tree::of(self.alloc, &form)? {
            Some(tree) => Ok(tree),
            None => unreachable!(),
        }
    }

    /// Puts a pin of `who` on a row. With room for a pin it takes no memory.
    pub fn pin(&mut self, who: u32, id: u128) -> Result<(), NoMemory>
        requires { HasRow self.old.table.rows id }
        ensures pinned { OnOk result (self.new.table ≡ with_pin self.old.table who id) }
        ensures room { 0 < self.old.room → IsOk result }
        ensures err { OnErr result (self.new.table ≡ self.old.table) }
    {
        self.pins.reserve(1)?;
        self.pins.push_reserved((who, id));
        Ok(())
    }

    /// Adds a tree: what isn't found becomes rows with the next numbers. Where it doesn't fit, the rows that no walk from a
    /// pin meets go first. At `Full` and `NoMemory` nothing changes.
    pub fn add(&mut self, tree: &Tree) -> Result<Added, NoMemory>
        requires { self.old.table.next < 2 ^ 127 }
        ensures added { IfOk result (λ added. AddsTree added self.old.table tree.now self.new.table) }
        ensures root { IfOk result (λ added. HasRoot added self.new.table) }
        ensures room { OnOk result (0 < self.new.room) }
        ensures err { OnErr result (self.new.table ≡ self.old.table) }
    {
        let _count = tree.len();
        let canon = tree.canon()?;
        self.add_graph(canon.graph())
    }

    /// Adds a tree that is given by its canonical graph.
    fn add_graph(&mut self, tree: &Graph) -> Result<Added, NoMemory>
        requires next { self.old.table.next < 2 ^ 127 }
        requires tree { IsTree tree.now }
        ensures added { IfOk result (λ added. AddsTree added self.old.table tree.now self.new.table) }
        ensures root { IfOk result (λ added. HasRoot added self.new.table) }
        ensures room { OnOk result (0 < self.new.room) }
        ensures err { OnErr result (self.new.table ≡ self.old.table) }
    {
        self.pins.reserve(1)?;
        let numbered = number_nodes(self.alloc, &self.stock, self.next, tree)?;
        if is_within(self.stock.nodes.len(), numbered.fresh.len(), self.cap) {
            let root = grow(self.alloc, &mut self.stock, self.next, tree, &numbered)?;
            self.next += numbered.fresh.len() as u128;
            return Ok(Added::Root(root));
        }
        self.add_to_swept(tree)
    }

    /// Adds a tree that doesn't fit to what a sweep leaves. There is room for a pin before.
    fn add_to_swept(&mut self, tree: &Graph) -> Result<Added, NoMemory>
        requires next { self.old.table.next < 2 ^ 127 }
        requires tree { IsTree tree.now }
        requires full { fits self.old.table tree.now ≡ false }
        requires room { 0 < self.old.room }
        ensures added { IfOk result (λ added. AddsTree added self.old.table tree.now self.new.table) }
        ensures root { IfOk result (λ added. HasRoot added self.new.table) }
        ensures room { OnOk result (0 < self.new.room) }
        ensures err { OnErr result (self.new.table ≡ self.old.table) }
    {
        let mut left = swept(self.alloc, &self.stock, &self.pins)?;
        let numbered = number_nodes(self.alloc, &left, self.next, tree)?;
        if !is_within(left.nodes.len(), numbered.fresh.len(), self.cap) {
            return Ok(Added::Full {
                rows: left.nodes.len() as u64,
                fresh: numbered.fresh.len() as u64,
            });
        }
        let root = grow(self.alloc, &mut left, self.next, tree, &numbered)?;
        self.next += numbered.fresh.len() as u128;
        self.stock = left;
        Ok(Added::Root(root))
    }

    /// The number of the row that is the tree of a node, `None` exactly where no row is that tree.
    pub fn find(&self, tree: &Tree, node: usize) -> Result<Option<u128>, NoMemory>
        requires { node < length tree.now }
        ensures { IfOk result (λ found. found ≡ find_row self.now.table.rows tree.now node) }
    {
        let _count = tree.len();
        let canon = tree.canon()?;
        find_number(self.alloc, &self.stock, self.next, canon.graph(), node)
    }

    /// The rows that no walk from a pin meets go. Gives how many. `NoMemory` changes nothing.
    pub fn sweep(&mut self) -> Result<u64, NoMemory>
        ensures table { OnOk result (self.new.table ≡ sweep self.old.table) }
        ensures count { IfOk result (λ gone. gone ≡ swept_count self.old.table) }
        ensures err { OnErr result (self.new.table ≡ self.old.table) }
    {
        let left = swept(self.alloc, &self.stock, &self.pins)?;
        let gone = self.stock.nodes.len() - left.nodes.len();
        self.stock = left;
        Ok(gone as u64)
    }

    /// Takes a pin of `who` off a row. Takes no memory. Linear in the pins.
    pub fn unpin(&mut self, who: u32, id: u128)
        requires { Contains self.old.table.pins (who, id) }
        ensures { self.new.table ≡ without_pin self.old.table who id }
    {
        let place = pin_place(&self.pins, who, id);
        self.pins.remove(place);
    }
}

/// Whether rows and fresh nodes together keep the limit.
fn is_within(rows: usize, fresh: usize, cap: u64) -> bool
    requires { rows + fresh < 2 ^ 64 }
    ensures { result ≡ not (nat_lt cap (rows + fresh)) }
{
    (rows + fresh) as u64 <= cap
}

/// Whether a caller has a pin on a row.
fn has_pin(pins: &[(u32, u128)], who: u32, id: u128) -> bool
    ensures { IsTrue result ↔ Contains pins.now (who, id) }
{
    for place in 0..pins.len() {
        if pins[place].0 == who && pins[place].1 == id {
            return true;
        }
    }
    false
}

/// The place of the first pin of a caller on a row.
fn pin_place(pins: &[(u32, u128)], who: u32, id: u128) -> usize
    requires { Contains pins.now (who, id) }
    ensures within { result < length pins.now }
    ensures first { without_first who id pins.now ≡ remove pins.now result }
{
    for place in 0..pins.len() {
        if pins[place].0 == who && pins[place].1 == id {
            return place;
        }
    }
    unreachable!()
}
