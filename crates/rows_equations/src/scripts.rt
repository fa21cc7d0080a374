//! Rows of equations and inequations: commands over one store, written as one tree `all(COMMAND, ..)`.
ghost use Rattle.mars_dif.specs.Kept.{Serves};
ghost use Rattle.rows_equations.specs.LastsInside.{StoreLasts, KeeperLasts};

use crate::answers::{Asked, put_answer, put_shape, put_trees, put_waiting};
use crate::building::{is_inside, load};
use crate::reading::Tree;
use crate::shapes::{put_size, put_unified};
use crate::world::World;
use crate::writing::{put, put_break, put_number};
use mars_base::NoMemory;
use mars_dif::Dif;
use mars_store::{NodeId, Store};
use mars_tree::Label;
use mars_unify::Unified;
use rows::push_label;
use std::alloc::Global;

/// What a node of a row's tree asks for.
#[derive(Clone, Copy, Debug, PartialEq, Eq)]
enum Command {
    /// `all(COMMAND, ..)`: the commands, in order.
    All,
    /// `try(COMMAND, ..)`: the commands, in order, and then all is undone.
    Try,
    /// `eq(a,b)`: makes two nodes equal.
    Equate,
    /// `dif(a,b)`: adds an inequation.
    Differ,
    /// `recheck`: rechecks the inequations.
    Recheck,
    /// `waiting`: the inequations that wait.
    Waiting,
    /// `bind(x,a)`: binds a variable, unless it leads to the node already.
    Bind,
    /// `last(a)`: the number of the node at the end of a node's links.
    Last,
    /// `root(a)`: the label that is forced.
    Root,
    /// `kids(a)`: the numbers of the kids.
    Kids,
    /// `size`: how many nodes and bindings there are.
    Size,
    /// `trail`: the bindings.
    Trail,
    /// `show(a, ..)`: the answer, of variables and of inequations `dif(a,b)` and frozen pairs `freeze(a,b)`.
    Show,
    /// `freeze(a,b)`, in `show`.
    Freeze,
    /// `trees(a, ..)`: each tree of an answer alone.
    Trees,
    /// `shape(a, ..)`: how many variables, inequations and frozen pairs an answer has, and its roots by number.
    Shape,
}

/// The command of a word.
fn command_of(word: &[u8]) -> Option<Command> {
    Some(match word {
        b"all" => Command::All,
        b"try" => Command::Try,
        b"eq" => Command::Equate,
        b"dif" => Command::Differ,
        b"recheck" => Command::Recheck,
        b"waiting" => Command::Waiting,
        b"bind" => Command::Bind,
        b"last" => Command::Last,
        b"root" => Command::Root,
        b"kids" => Command::Kids,
        b"size" => Command::Size,
        b"trail" => Command::Trail,
        b"show" => Command::Show,
        b"freeze" => Command::Freeze,
        b"trees" => Command::Trees,
        b"shape" => Command::Shape,
        _ => return None,
    })
}

/// The command at a node.
fn command_at(tree: &Tree, node: usize) -> Option<Command> {
    command_of(tree.name(node))
}

/// Puts the kids of a command last in two lists: the commands, and the others.
fn push_kids(
    tree: &Tree,
    command: usize,
    commands: &mut Vec<usize>,
    arguments: &mut Vec<usize>,
) -> Result<(), NoMemory> {
    for kid in tree.kids(command) {
        if command_at(tree, *kid).is_some() {
            commands.push(*kid)?;
        } else {
            arguments.push(*kid)?;
        }
    }
    Ok(())
}

/// Puts the nodes of a row's tree that its commands speak of last in a list. A row has fewer commands than nodes.
fn push_arguments(
    tree: &Tree,
    commands: &mut Vec<usize>,
    arguments: &mut Vec<usize>,
) -> Result<(), NoMemory> {
    for place in 0..tree.graph.len() {
        let Some(command) = commands.get(place).copied() else {
            break;
        };
        push_kids(tree, command, commands, arguments)?;
    }
    Ok(())
}

/// The nodes of a row's tree that its commands speak of.
fn arguments(alloc: Global, tree: &Tree) -> Result<Vec<usize>, NoMemory> {
    let mut commands = vec![in alloc; tree.root]?;
    let mut arguments = Vec::new(alloc);
    push_arguments(tree, &mut commands, &mut arguments)?;
    Ok(arguments)
}

/// Adds what a row's commands speak of to a store.
fn load_arguments(
    alloc: Global,
    store: &mut Store,
    tree: &Tree,
) -> Result<Vec<Option<NodeId>>, NoMemory> {
    let arguments = arguments(alloc, tree)?;
    load(alloc, store, tree, &arguments)
}

/// A row's tree, and the store's node for each of its nodes that the commands speak of.
#[derive(Clone, Copy)]
struct Script<'a> {
    tree: &'a Tree,
    nodes: &'a [Option<NodeId>],
}

impl Script<'_> {
    /// The store's node at an argument of a command.
    fn argument(&self, command: usize, at: usize) -> Option<NodeId> {
        let node = self.tree.kid(command, at)?;
        self.nodes.get(node).copied()?
    }

    /// The first two arguments of a command.
    fn pair(&self, command: usize) -> Option<(NodeId, NodeId)> {
        Some((self.argument(command, 0)?, self.argument(command, 1)?))
    }
}

/// Runs a row, and writes what each of its commands answers.
pub(crate) fn put_script(alloc: Global, tree: &Tree, into: &mut Vec<u8>) -> Result<(), NoMemory> {
    let mut store = Store::new(alloc);
    let nodes = load_arguments(alloc, &mut store, tree)?;
    let script = Script {
        tree,
        nodes: &nodes,
    };
    let mut world = World::new(alloc, store);
    run_all(&mut world, &script, into)
}

/// Runs the commands of a row.
fn run_all(world: &mut World, script: &Script, into: &mut Vec<u8>) -> Result<(), NoMemory>
    requires { Serves world.old.difs world.old.store }
{
    for command in script.tree.kids(script.tree.root) {
        put_break(into)?;
        run_outer(world, script, *command, into)?;
    }
    Ok(())
}

/// Runs a command other than `all`.
fn run_outer(
    world: &mut World,
    script: &Script,
    command: usize,
    into: &mut Vec<u8>,
) -> Result<(), NoMemory>
    requires { Serves world.old.difs world.old.store }
    ensures { Serves world.new.difs world.new.store }
{
    if command_at(script.tree, command) == Some(Command::Try) {
        run_try(world, script, command, into)
    } else {
        run(world, script, command, into)
    }
}

/// Runs the commands of `try`, and undoes all that they did.
fn run_try(
    world: &mut World,
    script: &Script,
    command: usize,
    into: &mut Vec<u8>,
) -> Result<(), NoMemory>
    requires { Serves world.old.difs world.old.store }
    ensures { Serves world.new.difs world.new.store }
{
    let store = world.store.mark();
    let difs = world.difs.mark();
    let mut inner = Vec::new(world.alloc);
    run_each(world, script, command, &mut inner)?;
    world.undo_to(store, difs);
    put_braces(&inner, into)
}

/// Writes a text in braces.
fn put_braces(text: &[u8], into: &mut Vec<u8>) -> Result<(), NoMemory> {
    put(into, "{")?;
    into.extend_from_slice(text)?;
    put(into, "}")
}

/// Runs the commands of `try`.
fn run_each(
    world: &mut World,
    script: &Script,
    command: usize,
    into: &mut Vec<u8>,
) -> Result<(), NoMemory>
    requires { Serves world.old.difs world.old.store }
    ensures serves { Serves world.new.difs world.new.store }
    ensures store { StoreLasts world.old.store world.new.store }
    ensures difs { KeeperLasts world.old.difs world.new.difs }
{
    for kid in script.tree.kids(command) {
        put_break(into)?;
        run(world, script, *kid, into)?;
    }
    Ok(())
}

/// Runs a command other than `all` and `try`.
fn run(world: &mut World, script: &Script, node: usize, into: &mut Vec<u8>) -> Result<(), NoMemory>
    requires { Serves world.old.difs world.old.store }
    ensures serves { Serves world.new.difs world.new.store }
    ensures store { StoreLasts world.old.store world.new.store }
    ensures difs { KeeperLasts world.old.difs world.new.difs }
{
    match command_at(script.tree, node) {
        Some(Command::Recheck) => put_fine(world.recheck()?, into),
        Some(Command::Equate) => match script.pair(node) {
            Some((a, b)) => put_equated(world.equate(a, b)?, into),
            None => put(into, "?"),
        },
        Some(Command::Differ) => match script.pair(node) {
            Some((a, b)) => put_differed(world.differ(a, b)?, into),
            None => put(into, "?"),
        },
        Some(Command::Bind) => match script.pair(node) {
            Some((a, b)) => put_bound(world.bind(a, b)?, into),
            None => put(into, "?"),
        },
        Some(command) => tell(world, script, command, node, into),
        None => put(into, "?"),
    }
}

fn put_fine(fine: bool, into: &mut Vec<u8>) -> Result<(), NoMemory> {
    put(into, if fine { "fine" } else { "broken" })
}

fn put_equated(unified: Option<Unified>, into: &mut Vec<u8>) -> Result<(), NoMemory> {
    match unified {
        Some(unified) => put_unified(unified, into),
        None => put(into, "?"),
    }
}

fn put_differed(dif: Option<Dif>, into: &mut Vec<u8>) -> Result<(), NoMemory> {
    put(
        into,
        match dif {
            Some(Dif::Holds) => "holds",
            Some(Dif::Waits) => "waits",
            Some(Dif::Fails) => "fails",
            None => "?",
        },
    )
}

fn put_bound(bound: bool, into: &mut Vec<u8>) -> Result<(), NoMemory> {
    put(into, if bound { "bound" } else { "not bound" })
}

/// Runs a command that changes nothing.
fn tell(
    world: &World,
    script: &Script,
    command: Command,
    node: usize,
    into: &mut Vec<u8>,
) -> Result<(), NoMemory> {
    match command {
        Command::Waiting => put_waiting(world, script.tree, into),
        Command::Size => put_size(&world.store, into),
        Command::Trail => put_trail(&world.store, into),
        Command::Show | Command::Trees | Command::Shape => {
            put_asked(world, script, command, node, into)
        }
        _ => match script.argument(node, 0) {
            Some(first) => tell_of(world, script.tree, command, first, into),
            None => put(into, "?"),
        },
    }
}

/// Runs a command that asks for an answer.
fn put_asked(
    world: &World,
    script: &Script,
    command: Command,
    node: usize,
    into: &mut Vec<u8>,
) -> Result<(), NoMemory> {
    let mut asked = Asked::nothing(world.alloc);
    push_asked(script, node, &mut asked)?;
    match command {
        Command::Show => put_answer(world, script.tree, &asked, into),
        Command::Trees => put_trees(world, script.tree, &asked, into),
        _ => put_shape(world, &asked, into),
    }
}

/// Adds all that an answer is asked of.
fn push_asked(script: &Script, command: usize, asked: &mut Asked) -> Result<(), NoMemory> {
    for (at, kid) in script.tree.kids(command).iter().enumerate() {
        push_asked_of(script, command, at, *kid, asked)?;
    }
    Ok(())
}

/// Adds what an answer is asked of: what isn't an inequation or a frozen pair is a variable.
fn push_asked_of(
    script: &Script,
    command: usize,
    at: usize,
    kid: usize,
    asked: &mut Asked,
) -> Result<(), NoMemory> {
    match (command_at(script.tree, kid), script.pair(kid)) {
        (Some(Command::Differ), Some(pair)) => asked.difs.push(pair)?,
        (Some(Command::Freeze), Some(pair)) => asked.frozen.push(pair)?,
        _ => {
            if let Some(node) = script.argument(command, at) {
                asked.vars.push(node)?;
            }
        }
    }
    Ok(())
}

/// Writes the bindings, the younger variable's number first.
fn put_trail(store: &Store, into: &mut Vec<u8>) -> Result<(), NoMemory> {
    for place in 0..store.mark().bound {
        let (var, node) = store.equation(place);
        put_number(into, if place == 0 { "#" } else { ", #" }, var.number())?;
        put_number(into, " = #", node.number())?;
    }
    Ok(())
}

/// Runs a command that speaks of one node.
fn tell_of(
    world: &World,
    tree: &Tree,
    command: Command,
    node: NodeId,
    into: &mut Vec<u8>,
) -> Result<(), NoMemory> {
    if !is_inside(&world.store, node) {
        return put(into, "?");
    }
    match command {
        Command::Last => put_number(into, "#", world.store.deref(node).number()),
        Command::Root => put_root(tree, world.store.root_label(node), into),
        Command::Kids => put_kids(&world.store, node, into),
        _ => put(into, "?"),
    }
}

/// Writes the label that is forced at a root, and how many kids it has.
fn put_root(tree: &Tree, label: Option<Label>, into: &mut Vec<u8>) -> Result<(), NoMemory> {
    match label {
        None => put(into, "free"),
        Some(label) => {
            push_label(&tree.names, Some(label), into)?;
            put_number(into, "/", label.arity())
        }
    }
}

/// Writes the numbers of the kids at a root.
fn put_kids(store: &Store, node: NodeId, into: &mut Vec<u8>) -> Result<(), NoMemory> {
    if !is_inside(store, node) {
        return put(into, "?");
    }
    let arity = match store.root_label(node) {
        Some(label) => label.arity(),
        None => 0,
    };
    for place in 0..arity {
        let kid = store.kid(node, place).number();
        put_number(into, if place == 0 { "#" } else { ", #" }, kid)?;
    }
    Ok(())
}
