//! The memory of a machine: store, inequations, frozen pairs and goal lists, undone together.
ghost use Rattle.std.specs.Prelude.{◌≡◌, ◌<◌, [], ◌∷◌, length};
ghost use Rattle.mars_dif.specs.Kept.{no_difs};
ghost use Rattle.mars_frozen.specs.Freezing.{no_frozen};
ghost use Rattle.mars_goals.specs.GoalLists.{TellsFirst, list_at};
ghost use Rattle.mars_memory.specs.Memory.{memory_mark, memory_undone, IsMemoryMark, root_of_node, first_of_node};

use mars_dif::DifStore;
use mars_frozen::Frozen;
use mars_goals::{GoalArena, GoalList, MachineMark, Pending};
use mars_store::{NodeId, Store};
use mars_tree::Label;
use std::alloc::Global;
use std::marker::Model;

/// A store with the inequations, the frozen pairs and the goal lists that are over its nodes.
#[derive(Drop)]
pub struct Memory {
    pub(crate) store: Store,
    pub(crate) inequations: DifStore,
    pub(crate) frozen: Frozen,
    pub(crate) lists: GoalArena,
}

impl Model for Memory {
    ghost use Rattle.mars_memory.specs.Memory.{MemoryParts};

    ghost Value = { MemoryParts };

    ghost view = { λ m. record { system = m.store; difs = m.inequations; frozen = m.frozen; lists = m.lists } };
}

impl Memory {
    /// A store and goal lists, with no inequation and no frozen pair.
    pub fn new(alloc: Global, store: Store, lists: GoalArena) -> Memory
        ensures { result ≡ record { system = store; difs = no_difs; frozen = no_frozen; lists = lists } }
    {
        Memory {
            store,
            inequations: DifStore::new(alloc),
            frozen: Frozen::new(alloc),
            lists,
        }
    }

    /// The present state.
    #[inline]
    pub fn mark(&self) -> MachineMark
        ensures mark { result ≡ memory_mark self.now }
        ensures made { IsMemoryMark self.now result }
        ensures back { memory_undone self.now result ≡ self.now }
    {
        MachineMark {
            store: self.store.mark(),
            inequations: self.inequations.mark(),
            frozen: self.frozen.mark(),
            lists: self.lists.len(),
        }
    }

    /// Goes back to a state that was marked. What is undone costs what it cost to do.
    pub fn undo_to(&mut self, mark: MachineMark)
        requires { IsMemoryMark self.old mark }
        ensures { self.new ≡ memory_undone self.old mark }
    {
        self.store.undo_to(mark.store);
        self.inequations.undo_to(mark.inequations);
        self.frozen.undo_to(mark.frozen);
        self.lists.truncate(mark.lists);
    }

    /// The first goal of a list, and the list after it; `None` exactly for an empty list. Constant.
    #[inline]
    pub fn first(&self, list: GoalList) -> Option<(Pending, GoalList)>
        requires { list < length self.now.lists }
        ensures { TellsFirst self.now.lists list result }
    {
        self.lists.first(list)
    }

    /// The label at the root of a node's tree, `None` exactly where it isn't known. Linear in the node's links.
    #[inline]
    pub fn root_label(&self, node: NodeId) -> Option<Label>
        requires { node < length self.now.system.nodes }
        ensures { result ≡ root_of_node self.now.system node }
    {
        self.store.root_label(node)
    }

    /// The label at the root of the first kid of a node's tree, `None` exactly where there is no kid or the label isn't
    /// known. Linear in both nodes' links.
    #[inline]
    pub fn first_label(&self, node: NodeId) -> Option<Label>
        requires { node < length self.now.system.nodes }
        ensures { result ≡ first_of_node self.now.system node }
    {
        match self.store.root_label(node) {
            Some(label) if label.arity() > 0 => self.store.root_label(self.store.kid(node, 0)),
            _ => None,
        }
    }
}
