//! Small trees that look random, so that equal ones come often.
use mars_base::NoMemory;
use mars_canon::{Canon, Tree};
use mars_tree::{Graph, Label, NameId};
use rows::{Draw, Stop, canon_of, set_kid_at};
use std::alloc::Global;

/// A tree, and its canonical graph.
#[derive(Drop)]
pub struct Sample {
    pub form: Canon,
    pub tree: Tree,
}

/// A name with no, one or one argument, or a dot.
fn draw_label(draw: &mut Draw) -> Label {
    let (name, arity) = match draw.below(5) {
        0 => (13, 0),
        1 | 2 => (14, 1),
        3 => (15, 1),
        _ => return Label::Dot,
    };
    Label::Name {
        name: NameId(name),
        arity,
    }
}

/// Gives a node random kids.
fn draw_kids(graph: &mut Graph, node: usize, count: usize, draw: &mut Draw) {
    if count > 0 {
        set_kid_at(graph, node, 0, draw.below(count));
        set_kid_at(graph, node, 1, draw.below(count));
    }
}

/// A graph of one to four nodes.
fn draw_graph(alloc: Global, draw: &mut Draw) -> Result<Graph, NoMemory> {
    let mut graph = Graph::new(alloc);
    let count = draw.below(4);
    for _ in 0..=count {
        graph.add(draw_label(draw))?;
    }
    for node in 0..graph.len() {
        let size = graph.len();
        draw_kids(&mut graph, node, size, draw);
    }
    Ok(graph)
}

/// The tree of the first node of a random graph.
pub fn draw_sample(alloc: Global, draw: &mut Draw) -> Result<Sample, Stop> {
    let graph = draw_graph(alloc, draw)?;
    let form = canon_of(alloc, &graph, &[0])?;
    match Tree::of(alloc, &form)? {
        Some(tree) => Ok(Sample { form, tree }),
        None => Err(Stop::NoTree),
    }
}
