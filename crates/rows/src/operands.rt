//! The trees that a row writes, one or more with `|` between them, and the graphs of these. A tree is written as in an
//! input, or with the labels of `labels`; besides, `roots(s, t, ..)` writes a graph with these roots, and
//! `ring(int9, ff, gg)`, `list(int9, aa, nil)`, `front(int9, aa, nil)` and `tuples(int9, aa)` write large shapes.
use crate::graphs::{kids_at, label_at, set_kid_at};
use crate::labels::{label_named, name_at};
use crate::shapes::{list, ring, tuples};
use crate::stopping::Stop;
use mars_base::NoMemory;
use mars_read::{ReadError, read_tree};
use mars_tree::{Graph, Label, Names};
use std::alloc::Global;

/// A graph with roots.
#[derive(Drop)]
pub struct Operand {
    pub graph: Graph,
    pub roots: Vec<usize>,
}

/// The graphs of a row, and the names of all.
#[derive(Drop)]
pub struct Operands {
    pub names: Names,
    pub all: Vec<Operand>,
}

/// The label that a node's label writes.
fn written_label(names: &Names, label: Label) -> Label {
    match label {
        Label::Name { name, arity } => label_named(names, name, arity),
        _ => label,
    }
}

/// Adds a node with the label that another label writes.
fn add_written(names: &Names, label: Option<Label>, made: &mut Graph) -> Result<(), NoMemory> {
    match label {
        Some(label) => made.add(written_label(names, label))?,
        None => made.add_free()?,
    };
    Ok(())
}

/// Adds the nodes of a graph with the labels that their names write.
fn add_all_written(names: &Names, graph: &Graph, made: &mut Graph) -> Result<(), NoMemory> {
    for node in 0..graph.len() {
        add_written(names, graph.label(node), made)?;
    }
    Ok(())
}

/// Gives a node the kids of the same node of another graph.
fn copy_kids(graph: &Graph, node: usize, made: &mut Graph) {
    for (place, kid) in kids_at(graph, node).iter().enumerate() {
        set_kid_at(made, node, place, *kid);
    }
}

/// The same nodes with the labels that their names write.
fn relabelled(alloc: Global, names: &Names, graph: &Graph) -> Result<Graph, NoMemory> {
    let mut made = Graph::new(alloc);
    add_all_written(names, graph, &mut made)?;
    for node in 0..graph.len() {
        copy_kids(graph, node, &mut made);
    }
    Ok(made)
}

/// The kid of a node at a place, the node itself where there is none.
fn argument(graph: &Graph, node: usize, place: usize) -> usize {
    match kids_at(graph, node).get(place) {
        Some(kid) => *kid,
        None => node,
    }
}

/// The size that the first argument of a shape writes, at most a million.
fn size_of(graph: &Graph, root: usize) -> u32 {
    match label_at(graph, argument(graph, root, 0)) {
        Some(Label::Int(size)) if 0 <= size && size <= 1_000_000 => size as u32,
        _ => 0,
    }
}

/// The label that an argument of a shape writes, with so many kids where it is a name.
fn label_for(graph: &Graph, root: usize, place: usize, arity: u32) -> Label {
    match label_at(graph, argument(graph, root, place)) {
        Some(Label::Name { name, arity: _ }) => Label::Name { name, arity },
        Some(label) => label,
        None => Label::Dot,
    }
}

/// A graph with some of its nodes as roots.
fn rooted(alloc: Global, graph: Graph, roots: &[usize]) -> Result<Operand, NoMemory> {
    let roots = Vec::from_slice(alloc, roots)?;
    Ok(Operand { graph, roots })
}

/// The ring that a tree asks for.
fn ring_of(alloc: Global, graph: &Graph, root: usize) -> Result<Graph, NoMemory> {
    let (first, other) = (label_for(graph, root, 1, 1), label_for(graph, root, 2, 1));
    ring(alloc, size_of(graph, root) as usize, first, other)
}

/// The list that a tree asks for.
fn list_of(alloc: Global, graph: &Graph, root: usize) -> Result<Graph, NoMemory> {
    let (element, end) = (label_for(graph, root, 1, 0), label_for(graph, root, 2, 0));
    list(alloc, size_of(graph, root) as usize, element, end)
}

/// The list that a tree asks for, with its last node as the root.
fn whole_list(alloc: Global, graph: &Graph, root: usize) -> Result<Operand, NoMemory> {
    let made = list_of(alloc, graph, root)?;
    let last = made.len().saturating_sub(1);
    rooted(alloc, made, &[last])
}

/// The graph that a tree is, with the tree's root or, where its name is `roots`, its kids as roots.
fn plain(alloc: Global, head: &[u8], graph: Graph, root: usize) -> Result<Operand, NoMemory> {
    if head != b"roots".as_slice() {
        return rooted(alloc, graph, &[root]);
    }
    let roots = Vec::from_slice(alloc, kids_at(&graph, root))?;
    Ok(Operand { graph, roots })
}

/// The graph of one tree, or that of the shape that it asks for.
fn operand_of(alloc: Global, head: &[u8], graph: Graph, root: usize) -> Result<Operand, NoMemory> {
    match head {
        b"ring" => rooted(alloc, ring_of(alloc, &graph, root)?, &[0]),
        b"list" => whole_list(alloc, &graph, root),
        b"front" => rooted(alloc, list_of(alloc, &graph, root)?, &[0, 2]),
        b"tuples" => {
            let leaf = label_for(&graph, root, 1, 0);
            rooted(alloc, tuples(alloc, size_of(&graph, root), leaf)?, &[0, 1])
        }
        _ => plain(alloc, head, graph, root),
    }
}

/// A row has at most so many bytes, and its trees so many names.
const MOST: usize = 1_000_000_000;

/// Reads one tree: what it says, as a graph with a root.
fn read_one(alloc: Global, text: &str, names: &mut Names) -> Result<(Graph, usize), Stop> {
    let bytes = text.as_bytes();
    if bytes.len() > MOST || names.len() > MOST {
        return Err(Stop::TooMany);
    }
    match read_tree(alloc, bytes, names) {
        Ok(made) => Ok(made),
        Err(ReadError::NoMemory) => Err(Stop::NoMemory),
        Err(_) => Err(Stop::Refused),
    }
}

/// Reads one tree: the graph that it asks for.
fn read_operand(alloc: Global, text: &str, names: &mut Names) -> Result<Operand, Stop> {
    let (graph, root) = read_one(alloc, text, names)?;
    let made = relabelled(alloc, names, &graph)?;
    Ok(operand_of(alloc, name_at(names, &graph, root), made, root)?)
}

/// Reads each tree of a row.
fn push_operands(alloc: Global, text: &str, into: &mut Operands) -> Result<(), Stop> {
    for tree in text.split('|') {
        let operand = read_operand(alloc, tree, &mut into.names)?;
        into.all.push(operand)?;
    }
    Ok(())
}

/// The graphs of a row's trees; `refused` where the reader refuses one.
pub fn read_operands(alloc: Global, text: &str) -> Result<Operands, Stop> {
    let mut operands = Operands {
        names: Names::new(alloc),
        all: Vec::new(alloc),
    };
    push_operands(alloc, text, &mut operands)?;
    Ok(operands)
}
