//! Goal lists that share their tails: an arena of cells, each a goal and the list after it.
ghost use Rattle.std.specs.Prelude.{◌≡◌, ◌<◌, ◌≤◌, ◌++◌, ◌∷◌, [], length, take, IfOk, OnOk, OnErr};
ghost use Rattle.mars_goals.specs.GoalLists.{list_at, TellsFirst};

use crate::cells::{Cells, Pending};
use crate::goal_list::GoalList;
use mars_base::NoMemory;
use std::alloc::Global;
use std::marker::Model;

/// Goal lists under numbers, each the empty one, or a goal before an earlier list. No list is ever copied or changed.
/// At `NoMemory` the lists are as before.
#[derive(Drop)]
pub struct GoalArena {
    /// The first cell is that of list 1.
    cells: Cells,
}

impl Model for GoalArena {
    ghost use Rattle.std.specs.Prelude.{List, [], ◌∷◌};
    ghost use Rattle.mars_goals.specs.declared.cells.Pending.{Pending};

    ghost Value = { List (List Pending) };

    ghost use Rattle.mars_goals.specs.CellsInside.{lists_of_cells, AreCells};

    ghost view = { λ arena. lists_of_cells ([] ∷ []) arena.cells.items };

    ghost invariant = { λ arena. AreCells arena.cells.items };
}

impl GoalArena {
    /// The empty list alone.
    pub fn new(alloc: Global) -> GoalArena
        ensures { result ≡ [] ∷ [] }
    {
        GoalArena {
            cells: Cells::new(alloc),
        }
    }

    /// How many lists there are: the mark of the present state.
    #[inline]
    pub fn len(&self) -> usize
        ensures len { result ≡ length self.now }
        ensures some { 0 < result }
    {
        self.cells.len() + 1
    }

    /// The empty list.
    #[inline]
    pub fn empty(&self) -> GoalList
        ensures inside { result < length self.now }
        ensures list { list_at self.now result ≡ [] }
    {
        let _count = self.cells.len();
        GoalList(0)
    }

    /// The list of a goal before a list. Constant.
    #[inline]
    pub fn push(&mut self, goal: Pending, rest: GoalList) -> Result<GoalList, NoMemory>
        requires { rest < length self.old }
        ensures list { IfOk result (λ list. list ≡ length self.old) }
        ensures ok { OnOk result (self.new ≡ self.old ++ (goal ∷ list_at self.old rest) ∷ []) }
        ensures err { OnErr result (self.new ≡ self.old) }
    {
        let list = self.len();
        self.cells.push(goal, rest.0)?;
        Ok(GoalList(list))
    }

    /// The first goal of a list, and the list after it; `None` exactly for an empty list. Constant.
    #[inline]
    pub fn first(&self, list: GoalList) -> Option<(Pending, GoalList)>
        requires { list < length self.now }
        ensures { TellsFirst self.now list result }
    {
        let _count = self.cells.len();
        if list.0 == 0 {
            return None;
        }
        let cell = self.cells.get(list.0 - 1);
        Some((cell.goal, GoalList(cell.rest)))
    }

    /// Keeps the first lists, so many as are asked for.
    #[inline]
    pub fn truncate(&mut self, len: usize)
        requires some { 0 < len }
        requires within { len ≤ length self.old }
        ensures { self.new ≡ take len self.old }
    {
        self.cells.truncate(len - 1);
    }
}
