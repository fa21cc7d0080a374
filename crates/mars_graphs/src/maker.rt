//! The maker of a tree's graph: it is told the tree in steps, as it is written, and has a node for each whole term.
ghost use Rattle.std.specs.Prelude.{◌≡◌, ◌<◌, ◌≤◌, List, ℕ, None, Some, length, reverse, take, drop, OnOk, IfOk};
ghost use Rattle.mars_tree.specs.Label.{arity_of};
ghost use Rattle.mars_graphs.specs.Steps.{Variable, Leaf, Open, Close, Equate, Define, label_over};
ghost use Rattle.mars_graphs.specs.Making.{nothing_made, makes, made_graph, made_root};

use crate::nodes::NodeMaker;
use mars_base::NoMemory;
use mars_tree::{Graph, Label, NameId};
use std::alloc::Global;
use std::marker::Model;

/// What is open while its kids are written.
#[derive(Clone, Copy, Debug, PartialEq, Eq, Drop)]
pub enum Head {
    Name(NameId),
    Tuple,
    Dot,
}

/// The label over so many kids.
fn label_over(head: Head, count: usize) -> Option<Label>
    ensures { result ≡ label_over head count }
{
    match head {
        Head::Name(name) => match u32::try_from(count) {
            Ok(arity) => Some(Label::Name { name, arity }),
            Err(_) => None,
        },
        Head::Tuple => match u32::try_from(count) {
            Ok(arity) => Some(Label::Tup(arity)),
            Err(_) => None,
        },
        Head::Dot => { if count == 2 { Some(Label::Dot) } else { None } }
    }
}

/// The graph of a tree that is being written. What a step makes is `makes` of it; after an error it is not said.
#[derive(Drop)]
pub struct GraphMaker {
    nodes: NodeMaker,
    terms: Vec<usize>,
    heads: Vec<(Head, usize)>,
    left: Option<usize>,
    twice: bool,
}

impl Model for GraphMaker {
    ghost use Rattle.mars_graphs.specs.Making.{Making};

    ghost Value = { Making };

    ghost use Rattle.mars_graphs.specs.MakingInside.{making_of, IsMakingInside};

    ghost view = { making_of };

    ghost invariant = { IsMakingInside };
}

impl GraphMaker {
    /// Nothing is written yet.
    pub fn new(alloc: Global) -> GraphMaker
        ensures { result ≡ nothing_made }
    {
        GraphMaker {
            nodes: NodeMaker::new(alloc),
            terms: Vec::new(alloc),
            heads: Vec::new(alloc),
            left: None,
            twice: false,
        }
    }

    /// A variable, by the number of its spelling.
    pub fn variable(&mut self, name: NameId) -> Result<(), NoMemory>
        ensures { OnOk result (self.new ≡ makes self.old (Variable name)) }
    {
        self.terms.reserve(1)?;
        let leaf = self.nodes.variable(name)?;
        self.terms.push_reserved(leaf);
        Ok(())
    }

    /// A label without kids.
    pub fn leaf(&mut self, label: Label) -> Result<(), NoMemory>
        requires { arity_of label ≡ 0 }
        ensures { OnOk result (self.new ≡ makes self.old (Leaf label)) }
    {
        self.terms.reserve(1)?;
        let node = self.nodes.apply(label, &[])?;
        self.terms.push_reserved(node);
        Ok(())
    }

    /// A name or a tuple, whose kids come next, or a dot, after its first kid.
    pub fn begin(&mut self, head: Head) -> Result<(), NoMemory>
        ensures { OnOk result (self.new ≡ makes self.old (Open head)) }
    {
        let count = self.terms.len();
        let before = match head {
            Head::Dot => count.saturating_sub(1),
            _ => count,
        };
        self.heads.push((head, before))?;
        Ok(())
    }

    /// The kids of the last name, tuple or dot that is open are whole.
    pub fn close(&mut self) -> Result<(), NoMemory>
        ensures { OnOk result (self.new ≡ makes self.old Close) }
    {
        self.terms.reserve(1)?;
        let Some((head, before)) = self.heads.pop() else {
            return Ok(());
        };
        let before = before.min(self.terms.len());
        let Some(label) = label_over(head, self.terms.len() - before) else {
            return Ok(());
        };
        let node = self.nodes.apply(label, &self.terms[before..])?;
        self.terms.truncate(before);
        self.terms.push_reserved(node);
        Ok(())
    }

    /// The variable of an equation.
    pub fn equate(&mut self, name: NameId) -> Result<(), NoMemory>
        ensures { OnOk result (self.new ≡ makes self.old (Equate name)) }
    {
        let leaf = self.nodes.variable(name)?;
        self.left = Some(leaf);
        self.twice = self.twice || self.nodes.gives_way(leaf);
        Ok(())
    }

    /// The term of the equation is whole.
    pub fn define(&mut self)
        ensures { self.new ≡ makes self.old Define }
    {
        let Some(root) = self.terms.pop() else {
            return;
        };
        if let Some(leaf) = self.left {
            self.nodes.tie(leaf, root);
        }
    }

    /// Whether a variable got a second equation.
    pub fn is_twice(&self) -> bool
        ensures { result ≡ self.now.twice }
    {
        self.twice
    }

    /// The graph, and its root. Linear in the nodes.
    pub fn finish(mut self) -> Result<(Graph, usize), NoMemory>
        ensures graph { IfOk result (λ made. made.0 ≡ made_graph self) }
        ensures root { IfOk result (λ made. made.1 ≡ made_root self) }
        ensures root_in { IfOk result (λ made. made.1 < length made.0) }
    {
        let root = match self.terms.first() {
            Some(root) => *root,
            None => self.nodes.variable(NameId(0))?,
        };
        Ok(self.nodes.finish(root))
    }
}
