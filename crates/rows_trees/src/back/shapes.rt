//! The list and the ring, and the labels of all graphs here.
use mars_base::NoMemory;
use mars_tree::{Graph, Label, NameId, Names};
use rows::set_kid_at;
use std::alloc::Global;

/// The names and strings that labels have.
#[derive(Clone, Copy)]
pub struct Lexicon {
    pub aa: NameId,
    pub nil: NameId,
    pub hh: NameId,
    pub kk: NameId,
    pub put: NameId,
    pub plain: NameId,
    pub odd: NameId,
    pub nothing: NameId,
}

/// The number of a spelling; none is left where there are no numbers.
fn number(names: &mut Names, text: &[u8]) -> Result<NameId, NoMemory> {
    if names.len() >= u32::MAX as usize {
        return Err(NoMemory);
    }
    names.id(text)
}

impl Lexicon {
    /// The lexicon, whose spellings are added to the names.
    pub fn new(names: &mut Names) -> Result<Lexicon, NoMemory> {
        Ok(Lexicon {
            aa: number(names, b"aa")?,
            nil: number(names, b"nil")?,
            hh: number(names, b"hh")?,
            kk: number(names, b"kk_1'")?,
            put: number(names, b"put")?,
            plain: number(names, b"plain text")?,
            odd: number(names, b"\"quoted\"\\ and\na line\n")?,
            nothing: number(names, b"")?,
        })
    }
}

/// A list of so many equal elements, and its root.
pub fn list(alloc: Global, lexicon: &Lexicon, size: usize) -> Result<(Graph, usize), NoMemory> {
    let mut graph = Graph::new(alloc);
    let element = graph.add(name(lexicon.aa, 0))?;
    let mut tail = graph.add(name(lexicon.nil, 0))?;
    for _ in 0..size {
        let dot = graph.add(Label::Dot)?;
        set_kid_at(&mut graph, dot, 0, element);
        set_kid_at(&mut graph, dot, 1, tail);
        tail = dot;
    }
    Ok((graph, tail))
}

/// A ring of so many nodes over one another, of which the root has a name of its own.
pub fn ring(alloc: Global, lexicon: &Lexicon, size: usize) -> Result<(Graph, usize), NoMemory> {
    let mut graph = Graph::new(alloc);
    let root = graph.add(name(lexicon.kk, 1))?;
    let mut next = root;
    for _ in 1..size {
        let node = graph.add(name(lexicon.hh, 1))?;
        set_kid_at(&mut graph, node, 0, next);
        next = node;
    }
    set_kid_at(&mut graph, root, 0, next);
    Ok((graph, root))
}

/// The label of a name with so many kids.
pub fn name(name: NameId, arity: u32) -> Label {
    Label::Name { name, arity }
}
