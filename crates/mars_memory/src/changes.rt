//! What calls of built-ins and answers ask of a memory, and change in it.
ghost use Rattle.std.specs.Prelude.{◌≡◌, ℕ, ◌<◌, ◌∷◌, [], List, All, Some, ◌++◌, length, slice_get, IfOk, OnOk, OnErr, MatchOption};
ghost use Rattle.mars_tree.specs.declared.label.Label.TheVariants.{Str};
ghost use Rattle.mars_tree.specs.declared.label.NameId.{NameId};
ghost use Rattle.mars_tree.specs.Label.{arity_of};
ghost use Rattle.mars_tree.specs.Graph.{kids_of, labelled};
ghost use Rattle.mars_store.specs.System.{IsSystem, resolve, with_node};
ghost use Rattle.mars_unify.specs.Unified.{OnYes, OnNo, IsSolved, Extends, AreApart};
ghost use Rattle.mars_val.specs.Number.{IsNumberOf};
ghost use Rattle.mars_answer.specs.Answer.{IsAnswerGraph, ArePairsInside, roots_of};
ghost use Rattle.mars_dif.specs.Told.{IsTold};
ghost use Rattle.mars_dif.specs.Kept.{IsCurrent, IsKeeper, Serves, with_dif, waiting_of, IsRechecked, IsAfter};
ghost use Rattle.mars_frozen.specs.Freezing.{with_frozen, waiting_pairs, IsLaterFrozen};
ghost use Rattle.mars_goals.specs.declared.cells.Pending.TheVariants.{Call};
ghost use Rattle.mars_goals.specs.GoalLists.{list_at};
ghost use Rattle.mars_memory.specs.Memory.{root_of_node};

use crate::memory::Memory;
use mars_answer::{Answer, answer};
use mars_base::NoMemory;
use mars_canon::Canon;
use mars_dif::Dif;
use mars_goals::{GoalList, Pending};
use mars_store::NodeId;
use mars_tree::{Label, NameId};
use mars_unify::{Unified, unify};
use mars_val::eval;
use std::alloc::Global;

impl Memory {
    /// The node of the argument at a place of a call. Linear in the node's links.
    #[inline]
    pub(crate) fn argument(&self, node: NodeId, place: usize) -> NodeId
        requires node { node < length self.now.system.nodes }
        requires place { place < length (kids_of self.now.system.nodes (resolve self.now.system.bound node)) }
        ensures kid { slice_get (kids_of self.now.system.nodes (resolve self.now.system.bound node)) place ≡ Some result }
        ensures inside { result < length self.now.system.nodes }
    {
        self.store.kid(node, place)
    }

    /// The string that the tree of a node is, `None` exactly where it is none.
    pub(crate) fn string_at(&self, node: NodeId) -> Option<NameId>
        requires { node < length self.now.system.nodes }
        ensures { MatchOption result ((string : NameId) → root_of_node self.now.system node ≡ Some (Str string) → ⊥) (λ string. root_of_node self.now.system node ≡ Some (Str string)) }
    {
        match self.store.root_label(node) {
            Some(Label::Str(string)) => Some(string),
            _ => None,
        }
    }

    /// Adds an inequation, unless it fails already.
    pub(crate) fn keep_apart(&mut self, left: NodeId, right: NodeId) -> Result<Dif, NoMemory>
        requires left { left < length self.old.system.nodes }
        requires right { right < length self.old.system.nodes }
        requires serves { Serves self.old.difs self.old.system }
        ensures told { IfOk result (λ dif. IsTold dif self.old.system left right) }
        ensures current { IfOk result (λ dif. (added : List (ℕ × ℕ)) → IsKeeper self.old.difs self.old.system added
            → IsCurrent self.new.difs self.old.system (with_dif dif added (left, right))) }
        ensures after { IsAfter self.old.difs self.new.difs }
        ensures others { self.new ≡ record self.old { difs = self.new.difs } }
    {
        self.inequations.add(&mut self.store, left, right)
    }

    /// Lets a goal wait until a node's root is known. Constant.
    pub(crate) fn freeze(&mut self, on: NodeId, goal: NodeId) -> Result<(), NoMemory>
        ensures ok { OnOk result (self.new ≡ record self.old { frozen = with_frozen self.old.frozen (on, goal) }) }
        ensures after { IsLaterFrozen self.old.frozen self.new.frozen }
    {
        self.frozen.add(on, goal)
    }

    /// The list of a call of a node before a list. Constant.
    pub(crate) fn call_before(&mut self, node: NodeId, rest: GoalList) -> Result<GoalList, NoMemory>
        requires { rest < length self.old.lists }
        ensures list { IfOk result (λ list. list ≡ length self.old.lists) }
        ensures ok { OnOk result (self.new ≡ record self.old { lists = self.old.lists ++ (Call node ∷ list_at self.old.lists rest) ∷ [] }) }
    {
        self.lists.push(Pending::Call(node), rest)
    }

    /// The number of a node's tree, `None` exactly where it has none: what `eval` takes.
    pub(crate) fn number_at(&self, alloc: Global, node: NodeId) -> Result<Option<i64>, NoMemory>
        requires { node < length self.now.system.nodes }
        ensures { IfOk result (λ number. IsNumberOf self.now.system node number) }
    {
        eval(alloc, &self.store, node)
    }

    /// Adds a node with a label that has no kids. Constant.
    pub(crate) fn leaf(&mut self, label: Label) -> Result<NodeId, NoMemory>
        requires { arity_of label ≡ 0 }
        ensures node { IfOk result (λ node. node ≡ length self.old.system.nodes) }
        ensures ok { OnOk result (self.new ≡ record self.old { system = with_node self.old.system (labelled label []) }) }
    {
        self.store.add(label, &[])
    }

    /// Makes two nodes equal: what `unify` takes.
    pub(crate) fn unify(
        &mut self,
        alloc: Global,
        left: NodeId,
        right: NodeId,
    ) -> Result<Unified, NoMemory>
        requires left { left < length self.old.system.nodes }
        requires right { right < length self.old.system.nodes }
        ensures solved { OnYes result (λ bound. IsSolved self.old.system self.new.system left right) }
        ensures extends { OnYes result (λ bound. Extends self.old.system self.new.system bound) }
        ensures apart { OnNo result (AreApart self.old.system left right) }
        ensures kept { OnNo result (self.new ≡ self.old) }
        ensures system { IsSystem self.new.system }
        ensures others { self.new ≡ record self.old { system = self.new.system } }
    {
        unify(alloc, &mut self.store, left, right)
    }

    /// What is known of a node's tree. Linear in what it reaches, and then what `canon` takes.
    pub(crate) fn tree_at(&self, alloc: Global, node: NodeId) -> Result<Canon, NoMemory>
        requires { node < length self.now.system.nodes }
        ensures { IfOk result (λ canon. IsAnswerGraph self.now.system (node ∷ []) canon) }
    {
        Ok(answer(alloc, &self.store, &[node], &[], &[])?.canon)
    }

    /// Looks again at the inequations, so that those that wait are the open ones, and says whether each can still hold.
    pub(crate) fn look_again(&mut self) -> Result<bool, NoMemory>
        requires { Serves self.old.difs self.old.system }
        ensures fine { IfOk result (λ fine. (added : List (ℕ × ℕ)) → IsKeeper self.old.difs self.old.system added → IsRechecked self.old.system added fine) }
        ensures current { OnOk result ((added : List (ℕ × ℕ)) → IsKeeper self.old.difs self.old.system added → IsCurrent self.new.difs self.old.system added) }
        ensures after { IsAfter self.old.difs self.new.difs }
        ensures others { self.new ≡ record self.old { difs = self.new.difs } }
    {
        self.inequations.recheck(&mut self.store)
    }

    /// What is known of nodes, of the inequations that wait and of the frozen pairs. Linear in what these reach, and then what
    /// `canon` takes.
    pub(crate) fn answer_at(&self, alloc: Global, asked: &[NodeId]) -> Result<Answer, NoMemory>
        requires asked { All (λ node. node < length self.now.system.nodes) asked.now }
        requires difs { All (ArePairsInside self.now.system) (waiting_of self.now.difs) }
        requires frozen { All (ArePairsInside self.now.system) (waiting_pairs self.now.frozen) }
        ensures answer { IfOk result (λ a. IsAnswerGraph self.now.system (roots_of asked.now (waiting_of self.now.difs) (waiting_pairs self.now.frozen)) a.canon) }
        ensures vars { IfOk result (λ a. a.vars ≡ length asked.now) }
        ensures difs { IfOk result (λ a. a.difs ≡ length (waiting_of self.now.difs)) }
        ensures frozen { IfOk result (λ a. a.frozen ≡ length (waiting_pairs self.now.frozen)) }
    {
        answer(
            alloc,
            &self.store,
            asked,
            self.inequations.waiting(),
            self.frozen.waiting(),
        )
    }
}
