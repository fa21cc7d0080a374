//! Rows on canonical graphs and trees: `layout`, `form`, `one`, `tree`, `size`, `twins` and `copy`.
use mars_base::NoMemory;
use mars_canon::{Canon, Tree};
use mars_tree::Names;
use rows::{
    Operand, Stop, canon_of, push_graph, push_label, push_number, push_numbers, push_roots, verdict,
};
use std::alloc::Global;

/// Asks of a type that threads may move and share its values.
fn is_shared<T: Send + Sync + Drop>(_value: &T) {}

/// The tree of a canonical graph.
fn tree_of(alloc: Global, canon: &Canon) -> Result<Tree, Stop> {
    match Tree::of(alloc, canon)? {
        Some(tree) => Ok(tree),
        None => Err(Stop::NoTree),
    }
}

/// The canonical graph of an operand.
pub fn form_of(alloc: Global, tree: &Operand) -> Result<Canon, Stop> {
    canon_of(alloc, &tree.graph, &tree.roots)
}

/// Writes the nodes of a canonical graph, its roots, and whether it is ground.
fn push_layout(names: &Names, canon: &Canon, into: &mut Vec<u8>) -> Result<(), NoMemory> {
    is_shared(canon);
    push_graph(names, canon.graph(), into)?;
    push_roots(canon.roots(), into)?;
    into.extend_from_slice(if canon.ground() {
        b", ground"
    } else {
        b", free"
    })?;
    Ok(())
}

/// Writes the nodes of a canonical graph, by its own calls.
fn push_form(names: &Names, canon: &Canon, into: &mut Vec<u8>) -> Result<(), NoMemory> {
    for node in 0..canon.len() {
        into.extend_from_slice(if node > 0 { b" " } else { b"" })?;
        push_label(names, canon.label(node), into)?;
        into.extend_from_slice(b"(")?;
        push_numbers(canon.kids(node), b",", into)?;
        into.extend_from_slice(b")")?;
        for place in 0..canon.arity(node) {
            into.extend_from_slice(b"/")?;
            push_number(canon.kid(node, place), into)?;
        }
    }
    Ok(())
}

/// Writes the nodes of a tree, by its own calls.
fn push_tree_nodes(names: &Names, tree: &Tree, into: &mut Vec<u8>) -> Result<(), NoMemory> {
    for node in 0..tree.len() {
        into.extend_from_slice(if node > 0 { b" " } else { b"" })?;
        push_label(names, Some(tree.label(node)), into)?;
        for place in 0..tree.arity(node) {
            into.extend_from_slice(b"/")?;
            push_number(tree.kid(node, place), into)?;
        }
    }
    Ok(())
}

/// Writes how many nodes a canonical graph has, and how many its tree has.
fn push_size(alloc: Global, canon: &Canon, into: &mut Vec<u8>) -> Result<(), NoMemory> {
    push_number(canon.len(), into)?;
    into.extend_from_slice(b" nodes, ")?;
    match Tree::of(alloc, canon)? {
        Some(tree) => push_tree_size(tree.len(), into),
        None => Ok(into.extend_from_slice(b"no tree")?),
    }
}

/// Writes how many nodes a tree has.
fn push_tree_size(count: usize, into: &mut Vec<u8>) -> Result<(), NoMemory> {
    into.extend_from_slice(b"a tree of ")?;
    push_number(count, into)
}

/// Writes how a copy of a tree compares with it, and how the canonical graph of the tree with the one it was made of.
fn push_copies(canon: &Canon, tree: &Tree, into: &mut Vec<u8>) -> Result<(), NoMemory> {
    let copy = compare_copy(tree)?;
    let again = compare_canon(canon, tree)?;
    into.extend_from_slice(b"copy ")?;
    into.extend_from_slice(copy.as_bytes())?;
    into.extend_from_slice(b"; canonical graph ")?;
    into.extend_from_slice(again.as_bytes())?;
    Ok(())
}

/// How a copy of a tree compares with it.
fn compare_copy(tree: &Tree) -> Result<&'static str, NoMemory> {
    let copy = tree.copy()?;
    Ok(verdict(tree, &copy))
}

/// How a canonical graph compares with that of its tree.
fn compare_canon(canon: &Canon, tree: &Tree) -> Result<&'static str, NoMemory> {
    let again = tree.canon()?;
    Ok(verdict(canon, &again))
}

/// Answers a row on the canonical graph of one operand.
pub fn answer_form(
    alloc: Global,
    word: &str,
    names: &Names,
    canon: &Canon,
    into: &mut Vec<u8>,
) -> Result<(), Stop> {
    match word {
        "layout" => Ok(push_layout(names, canon, into)?),
        "form" => Ok(push_form(names, canon, into)?),
        "size" => Ok(push_size(alloc, canon, into)?),
        _ => {
            let tree = tree_of(alloc, canon)?;
            answer_tree(word, names, canon, &tree, into)
        }
    }
}

/// Answers a row on the tree of a canonical graph.
fn answer_tree(
    word: &str,
    names: &Names,
    canon: &Canon,
    tree: &Tree,
    into: &mut Vec<u8>,
) -> Result<(), Stop> {
    is_shared(tree);
    match word {
        "tree" => Ok(push_tree_nodes(names, tree, into)?),
        "copy" => Ok(push_copies(canon, tree, into)?),
        _ => Err(Stop::NoRow),
    }
}

/// How the trees of two canonical graphs compare.
fn compare_trees(alloc: Global, left: &Canon, right: &Canon) -> Result<&'static str, Stop> {
    let left = tree_of(alloc, left)?;
    let right = tree_of(alloc, right)?;
    Ok(verdict(&left, &right))
}

/// How two canonical graphs compare, or their trees.
fn compare(alloc: Global, word: &str, left: &Canon, right: &Canon) -> Result<&'static str, Stop> {
    match word {
        "one" => Ok(verdict(left, right)),
        "twins" => compare_trees(alloc, left, right),
        _ => Err(Stop::NoRow),
    }
}

/// How two operands compare.
fn compare_operands(
    alloc: Global,
    word: &str,
    left: &Operand,
    right: &Operand,
) -> Result<&'static str, Stop> {
    let left = form_of(alloc, left)?;
    let right = form_of(alloc, right)?;
    compare(alloc, word, &left, &right)
}

/// Answers whether two canonical graphs, or two trees, are equal, and whether equal ones have one hash.
pub fn answer_pair(
    alloc: Global,
    word: &str,
    left: &Operand,
    right: &Operand,
    into: &mut Vec<u8>,
) -> Result<(), Stop> {
    let said = compare_operands(alloc, word, left, right)?;
    into.extend_from_slice(said.as_bytes())?;
    Ok(())
}
