//! What a command does, by the session's own names and its latest ask.
ghost use Rattle.std.specs.Prelude.{◌≡◌, IfOk, List, Option, Some, None, MatchOption, slice_index_or, option_map};
ghost use Rattle.mars_session.specs.declared.named.Named.{Named};
ghost use Rattle.mars_session.specs.SessionPoints.{SessionPoint, under_name};
ghost use Rattle.mars_session.specs.CommandActs.{KeepsTree, PutActs, KeepsRoot, KeepsVariable, KeepsLatest, KeepActs, SameActs, Writes, variable_place, show_act, pin_act, drop_act, ActsAt};
ghost use Rattle.mars_session.specs.ActsInside.{IsAct, latest_of};

use crate::forms::form_of;
use crate::lines::push_too_large;
use crate::maps::find;
use crate::named::{Named, TreeForm};
use crate::wishes::Wish;
use mars_answer::Answer;
use mars_base::NoMemory;
use mars_canon::Canon;
use mars_script::Command;
use mars_tree::{Graph, NameId};
use std::alloc::Global;

/// An ask that ran: its variables, and its last answer.
#[derive(Drop)]
pub(crate) struct Latest<'a> {
    pub(crate) vars: &'a [NameId],
    pub(crate) answer: Option<Answer>,
}

/// What a command other than an ask does: it writes a line, or it has a use of the table.
#[derive(Drop)]
pub(crate) enum Act {
    Writes(Vec<u8>),
    Uses(Wish),
}

/// A line of these bytes.
pub(crate) fn line_of(alloc: Global, bytes: &[u8]) -> Result<Vec<u8>, NoMemory>
    ensures { IfOk result (λ line. line.items ≡ bytes.now) }
{
    let mut line = Vec::new(alloc);
    line.extend_from_slice(bytes)?;
    Ok(line)
}

/// Keeps the tree of a node under a name that isn't taken.
fn keep_tree(alloc: Global, name: NameId, graph: &Graph, root: usize) -> Result<Act, NoMemory>
    ensures { IfOk result (λ act. (names : List Named) → IsAct names (KeepsTree name graph.now root) act) }
{
    match form_of(alloc, graph, root)? {
        TreeForm::Free => Ok(Act::Writes(line_of(alloc, b"not ground\n")?)),
        TreeForm::Large(count) => {
            let mut line = Vec::new(alloc);
            push_too_large(&mut line, count)?;
            Ok(Act::Writes(line))
        }
        TreeForm::Small(tree) => Ok(Act::Uses(Wish::Keeps { name, tree })),
    }
}

/// What `put` does.
fn put_act(
    alloc: Global,
    names: &[Named],
    name: NameId,
    graph: &Graph,
    root: usize,
) -> Result<Act, NoMemory>
    ensures { IfOk result (IsAct names.now (PutActs (under_name names.now name) name graph.now root)) }
{
    match find(names, name) {
        Some(_) => Ok(Act::Writes(line_of(alloc, b"name taken\n")?)),
        None => keep_tree(alloc, name, graph, root),
    }
}

/// The root of an answer at a place, node 0 where there is none.
fn root_at(canon: &Canon, place: usize) -> usize
    ensures { result ≡ slice_index_or canon.now.roots place 0 }
{
    match canon.roots().get(place) {
        Some(root) => *root,
        None => 0,
    }
}

/// Keeps the tree of a root of an answer.
fn keep_root(
    alloc: Global,
    name: NameId,
    canon: &Canon,
    place: Option<usize>,
) -> Result<Act, NoMemory>
    ensures { IfOk result (λ act. (names : List Named) → IsAct names (KeepsRoot name canon.now place) act) }
{
    match place {
        Some(place) => keep_tree(alloc, name, canon.graph(), root_at(canon, place)),
        None => Ok(Act::Writes(line_of(alloc, b"no variable\n")?)),
    }
}

/// The place of a variable among those of an ask.
fn place_of_variable(vars: &[NameId], var: NameId) -> Option<usize>
    ensures { result ≡ variable_place vars.now var }
{
    vars.iter().position(|v| v.0 == var.0)
}

/// Keeps the tree of a variable in the answer of an ask that ran.
fn keep_variable(alloc: Global, name: NameId, var: NameId, latest: &Latest) -> Result<Act, NoMemory>
    ensures { IfOk result (λ act. (names : List Named) → IsAct names (KeepsVariable name var latest.now.vars.now (option_map (λ a. a.canon) latest.now.answer)) act) }
{
    match &latest.answer {
        Some(answer) => keep_root(
            alloc,
            name,
            &answer.canon,
            place_of_variable(latest.vars, var),
        ),
        None => Ok(Act::Writes(line_of(alloc, b"no answer\n")?)),
    }
}

/// Keeps the tree of a variable in the last answer of the latest ask that ran.
fn keep_latest(
    alloc: Global,
    name: NameId,
    var: NameId,
    latest: &Option<Latest>,
) -> Result<Act, NoMemory>
    ensures { IfOk result (λ act. (names : List Named) → IsAct names (KeepsLatest name var (latest_of latest.now)) act) }
{
    match latest {
        Some(latest) => keep_variable(alloc, name, var, latest),
        None => Ok(Act::Writes(line_of(alloc, b"no answer\n")?)),
    }
}

/// What `keep` does.
fn keep_act(
    alloc: Global,
    names: &[Named],
    latest: &Option<Latest>,
    name: NameId,
    var: NameId,
) -> Result<Act, NoMemory>
    ensures { IfOk result (IsAct names.now (KeepActs (under_name names.now name) name var (latest_of latest.now))) }
{
    match find(names, name) {
        Some(_) => Ok(Act::Writes(line_of(alloc, b"name taken\n")?)),
        None => keep_latest(alloc, name, var, latest),
    }
}

/// What `same` writes.
fn same_line(left: Option<&Named>, right: Option<&Named>) -> &'static [u8]
    ensures { (o q : Option Named) → MatchOption left.entry (o ≡ None) (λ n. o ≡ Some n.now) → MatchOption right.entry (q ≡ None) (λ n. q ≡ Some n.now) → SameActs o q (Writes result.now) }
{
    match (left, right) {
        (Some(left), Some(right)) => {
            if left.tree == right.tree {
                b"same yes\n"
            } else {
                b"same no\n"
            }
        }
        _ => b"no name\n",
    }
}

/// What `same` does.
fn same_act(alloc: Global, names: &[Named], left: NameId, right: NameId) -> Result<Act, NoMemory>
    ensures { IfOk result (IsAct names.now (SameActs (under_name names.now left) (under_name names.now right))) }
{
    let line = same_line(find(names, left), find(names, right));
    Ok(Act::Writes(line_of(alloc, line)?))
}

/// What `show` does.
fn show_act(alloc: Global, names: &[Named], name: NameId) -> Result<Act, NoMemory>
    ensures { IfOk result (IsAct names.now (λ act. act ≡ show_act name (under_name names.now name))) }
{
    match find(names, name) {
        Some(_) => Ok(Act::Uses(Wish::Shows { name })),
        None => Ok(Act::Writes(line_of(alloc, b"no name\n")?)),
    }
}

/// What `pin` does.
fn pin_act(alloc: Global, names: &[Named], new: NameId, old: NameId) -> Result<Act, NoMemory>
    ensures { IfOk result (IsAct names.now (λ act. act ≡ pin_act new (under_name names.now old) (under_name names.now new))) }
{
    match (find(names, old), find(names, new)) {
        (None, _) => Ok(Act::Writes(line_of(alloc, b"no name\n")?)),
        (Some(_), Some(_)) => Ok(Act::Writes(line_of(alloc, b"name taken\n")?)),
        (Some(_), None) => Ok(Act::Uses(Wish::Pins { new, old })),
    }
}

/// What `drop` does.
fn drop_act(alloc: Global, names: &[Named], name: NameId) -> Result<Act, NoMemory>
    ensures { IfOk result (IsAct names.now (λ act. act ≡ drop_act name (under_name names.now name))) }
{
    match find(names, name) {
        Some(_) => Ok(Act::Uses(Wish::Drops { name })),
        None => Ok(Act::Writes(line_of(alloc, b"no name\n")?)),
    }
}

/// What a command other than an ask does.
#[tactic(auto, unfolding(crate::specs::CommandActs::ActsAt))]
pub(crate) fn command_act(
    alloc: Global,
    names: &[Named],
    latest: &Option<Latest>,
    command: &Command,
) -> Result<Act, NoMemory>
    ensures { IfOk result (λ act. (p : SessionPoint) → p.names ≡ names.now → p.latest ≡ latest_of latest.now → IsAct names.now (ActsAt p command.now) act) }
{
    match command {
        Command::Put { name, graph, root } => put_act(alloc, names, *name, graph, *root),
        Command::Ask { ask: _ } => Err(NoMemory),
        Command::Keep { name, var } => keep_act(alloc, names, latest, *name, *var),
        Command::Same { left, right } => same_act(alloc, names, *left, *right),
        Command::Show { name } => show_act(alloc, names, *name),
        Command::Pin { new, old } => pin_act(alloc, names, *new, *old),
        Command::Drop { name } => drop_act(alloc, names, *name),
        Command::Sweep => Ok(Act::Uses(Wish::Sweeps)),
        Command::Count => Ok(Act::Uses(Wish::Counts)),
    }
}
