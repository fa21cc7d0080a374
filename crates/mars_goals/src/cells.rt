//! Goals, and the cells of their lists: in 16 bytes each, as long as the numbers of lists fit 32 bits.
ghost use Rattle.std.specs.Prelude.{◌≡◌, ◌<◌, ◌≤◌, ◌+◌, ◌^◌, ◌++◌, ◌∷◌, [], length, map, take, slice_index_or, IfOk, OnOk, OnErr};
ghost use Rattle.mars_goals.specs.CellsInside.{cell_of};

use mars_base::NoMemory;
use mars_store::NodeId;
use std::alloc::Global;
use std::marker::Model;

/// A goal that is still to be done.
#[derive(Clone, Copy, Debug, PartialEq, Eq)]
pub enum Pending {
    /// A call of a node of the store.
    Call(NodeId),
    /// A cut, which keeps so many of the choice points, the earliest.
    Cut(usize),
}

/// A goal, and the number of the list after it.
#[derive(Clone, Copy)]
pub(crate) struct Cell {
    pub(crate) goal: Pending,
    pub(crate) rest: usize,
}

/// A cell in 16 bytes: the number of the list after it in 32 bits, beside the kind of the goal.
#[derive(Clone, Copy)]
enum NarrowCell {
    Call { rest: u32, node: NodeId },
    Cut { rest: u32, depth: usize },
}

const _: () = prove!(size_of::<NarrowCell>() == 16);

/// Cells in order. They are kept wide from the first one on whose rest doesn't fit 32 bits.
#[derive(Drop)]
pub(crate) struct Cells {
    form: Form,
}

#[derive(Drop)]
enum Form {
    Narrow(Vec<NarrowCell>),
    Wide(Vec<Cell>),
}

impl Model for Cells {
    ghost use Rattle.mars_goals.specs.CellsInside.{CellList};

    ghost Value = { CellList };

    ghost use Rattle.mars_goals.specs.CellsInside.{cell_list};

    ghost view = { λ c. cell_list c.form };
}

impl Cells {
    /// No cell.
    pub(crate) fn new(alloc: Global) -> Cells
        ensures { result.items ≡ [] }
    {
        Cells {
            form: Form::Narrow(Vec::new(alloc)),
        }
    }

    /// How many there are.
    #[inline]
    pub(crate) fn len(&self) -> usize
        ensures len { result ≡ length self.now.items }
        ensures few { result < 2 ^ 63 }
    {
        match &self.form {
            Form::Narrow(all) => all.len(),
            Form::Wide(all) => all.len(),
        }
    }

    /// The cell at a place.
    #[inline]
    pub(crate) fn get(&self, place: usize) -> Cell
        requires { place < length self.now.items }
        ensures { result ≡ slice_index_or self.now.items place result }
    {
        match &self.form {
            Form::Narrow(all) => widened(all[place]),
            Form::Wide(all) => all[place],
        }
    }

    /// Makes room in width for the number of a list. Linear where the cells are widened, which happens once at most.
    #[inline]
    fn fit(&mut self, rest: usize) -> Result<(), NoMemory>
        ensures items { self.new.items ≡ self.old.items }
        ensures most { OnOk result (rest ≤ self.new.most) }
    {
        if matches!(&self.form, Form::Narrow(_)) && rest > u32::MAX as usize {
            self.widen()?;
        }
        Ok(())
    }

    /// Keeps the cells in 24 bytes each from now on.
    #[cold]
    fn widen(&mut self) -> Result<(), NoMemory>
        ensures items { self.new.items ≡ self.old.items }
        ensures most { OnOk result (2 ^ 64 ≤ self.new.most + 1) }
    {
        let wide = match &self.form {
            Form::Narrow(all) => all_widened(*all.allocator(), all)?,
            Form::Wide(_) => {
                return Ok(());
            }
        };
        self.form = Form::Wide(wide);
        Ok(())
    }

    /// Adds a cell at the end.
    #[inline]
    pub(crate) fn push(&mut self, goal: Pending, rest: usize) -> Result<(), NoMemory>
        ensures ok { OnOk result (self.new.items ≡ self.old.items ++ record { goal = goal; rest = rest } ∷ []) }
        ensures err { OnErr result (self.new.items ≡ self.old.items) }
    {
        self.fit(rest)?;
        match &mut self.form {
            Form::Narrow(all) => push_narrowed(all, goal, rest)?,
            Form::Wide(all) => push_plain(all, goal, rest)?,
        }
        Ok(())
    }

    /// Keeps the first cells, so many as are asked for.
    #[inline]
    pub(crate) fn truncate(&mut self, len: usize)
        ensures { self.new.items ≡ take len self.old.items }
    {
        match &mut self.form {
            Form::Narrow(all) => truncate_narrow(all, len),
            Form::Wide(all) => all.truncate(len),
        }
    }
}

/// The same cell, in 24 bytes.
#[inline]
fn widened(cell: NarrowCell) -> Cell
    ensures { result ≡ cell_of cell }
{
    match cell {
        NarrowCell::Call { rest, node } => Cell {
            goal: Pending::Call(node),
            rest: rest as usize,
        },
        NarrowCell::Cut { rest, depth } => Cell {
            goal: Pending::Cut(depth),
            rest: rest as usize,
        },
    }
}

/// Adds a cell at the end.
#[inline]
fn push_plain(all: &mut Vec<Cell>, goal: Pending, rest: usize) -> Result<(), NoMemory>
    ensures ok { OnOk result (all.new.items ≡ all.old.items ++ record { goal = goal; rest = rest } ∷ []) }
    ensures err { OnErr result (all.new.items ≡ all.old.items) }
{
    all.push(Cell { goal, rest })?;
    Ok(())
}

/// Adds a cell at the end.
#[inline]
fn push_narrowed(all: &mut Vec<NarrowCell>, goal: Pending, rest: usize) -> Result<(), NoMemory>
    requires { rest < 2 ^ 32 }
    ensures ok { OnOk result (map cell_of all.new.items ≡ map cell_of all.old.items ++ record { goal = goal; rest = rest } ∷ []) }
    ensures err { OnErr result (all.new.items ≡ all.old.items) }
{
    all.push(narrowed(goal, rest as u32))?;
    Ok(())
}

/// A cell in 16 bytes.
#[inline]
fn narrowed(goal: Pending, rest: u32) -> NarrowCell
    ensures { cell_of result ≡ record { goal = goal; rest = rest } }
{
    match goal {
        Pending::Call(node) => NarrowCell::Call { rest, node },
        Pending::Cut(depth) => NarrowCell::Cut { rest, depth },
    }
}

/// Keeps the first cells.
#[inline]
fn truncate_narrow(all: &mut Vec<NarrowCell>, len: usize)
    ensures { map cell_of all.new.items ≡ take len (map cell_of all.old.items) }
{
    all.truncate(len);
}

/// The same cells in 24 bytes each.
fn all_widened(alloc: Global, cells: &[NarrowCell]) -> Result<Vec<Cell>, NoMemory>
    ensures { IfOk result (λ all. all.items ≡ map cell_of cells.now) }
{
    Ok(cells.iter().map(|cell| widened(*cell)).collect(alloc)?)
}
