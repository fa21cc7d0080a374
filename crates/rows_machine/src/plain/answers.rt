//! Answers and trees as canonical graphs.
use crate::plain::equations::Classes;
use crate::plain::goals::{Atom, Flat};
use mars_base::NoMemory;
use mars_canon::Canon;
use mars_tree::{Graph, Label, NameId};
use rows::{Stop, canon_of, set_kid_at};
use std::alloc::Global;

/// The canonical graph of an answer's roots, and how many open inequations and frozen pairs there are.
#[derive(Drop)]
pub(crate) struct PlainAnswer {
    pub(crate) canon: Canon,
    pub(crate) difs: usize,
    pub(crate) frozen: usize,
}

/// A graph, and the nodes of the variables that have one.
#[derive(Drop)]
struct Drawn {
    graph: Graph,
    vars: Vec<(Atom, usize)>,
}

/// A name with so many arguments.
fn label_of(name: u32, arity: u32) -> Label {
    Label::Name {
        name: NameId(name),
        arity,
    }
}

impl Drawn {
    fn new(alloc: Global) -> Drawn {
        Drawn {
            graph: Graph::new(alloc),
            vars: Vec::new(alloc),
        }
    }

    /// The node of an atom: one for all that are equal.
    fn node(&mut self, classes: &Classes, atom: Atom) -> Result<usize, NoMemory> {
        let told = classes.of(atom);
        match told {
            Atom::Name(name) => Ok(self.graph.add(label_of(name, 0))?),
            Atom::Var(_) => self.free_node(told),
        }
    }

    /// The free leaf of a variable.
    fn free_node(&mut self, told: Atom) -> Result<usize, NoMemory> {
        for pair in self.vars.iter() {
            if pair.0 == told {
                return Ok(pair.1);
            }
        }
        let node = self.graph.add_free()?;
        self.vars.push((told, node))?;
        Ok(node)
    }

    /// The node of a term.
    fn flat_node(&mut self, classes: &Classes, flat: Flat) -> Result<usize, NoMemory> {
        match (flat.first, flat.second) {
            (Some(left), Some(right)) => {
                let one = self.node(classes, left)?;
                let other = self.node(classes, right)?;
                let node = self.graph.add(label_of(flat.name, 2))?;
                set_kid_at(&mut self.graph, node, 0, one);
                set_kid_at(&mut self.graph, node, 1, other);
                Ok(node)
            }
            (Some(left), None) => {
                let one = self.node(classes, left)?;
                let node = self.graph.add(label_of(flat.name, 1))?;
                set_kid_at(&mut self.graph, node, 0, one);
                Ok(node)
            }
            _ => Ok(self.graph.add(label_of(flat.name, 0))?),
        }
    }
}

/// The tree of an atom.
pub(crate) fn tree_of(alloc: Global, classes: &Classes, atom: Atom) -> Result<Canon, Stop> {
    let mut drawn = Drawn::new(alloc);
    let node = drawn.node(classes, atom)?;
    canon_of(alloc, &drawn.graph, &[node])
}

/// The answer of so many variables, inequations and frozen pairs.
pub(crate) fn answer_of(
    alloc: Global,
    classes: &Classes,
    vars: u32,
    differ: &[(Atom, Atom)],
    frozen: &[(Atom, Flat)],
) -> Result<PlainAnswer, Stop> {
    let mut drawn = Drawn::new(alloc);
    let mut roots = Vec::new(alloc);
    for number in 0..vars {
        roots.push(drawn.node(classes, Atom::Var(number))?)?;
    }
    let difs = push_open(&mut drawn, classes, differ, &mut roots)?;
    for pair in frozen {
        roots.push(drawn.node(classes, pair.0)?)?;
        roots.push(drawn.flat_node(classes, pair.1)?)?;
    }
    Ok(PlainAnswer {
        canon: canon_of(alloc, &drawn.graph, &roots)?,
        difs,
        frozen: frozen.len(),
    })
}

/// Adds both sides of each inequation whose equality is still allowed, and counts these.
fn push_open(
    drawn: &mut Drawn,
    classes: &Classes,
    differ: &[(Atom, Atom)],
    roots: &mut Vec<usize>,
) -> Result<usize, NoMemory> {
    let mut count: usize = 0;
    for pair in differ {
        if classes.may_be_equal(pair.0, pair.1) {
            roots.push(drawn.node(classes, pair.0)?)?;
            roots.push(drawn.node(classes, pair.1)?)?;
            count = count.wrapping_add(1);
        }
    }
    Ok(count)
}
