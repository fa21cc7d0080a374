//! Classes of places, by links that lead to smaller places.
ghost use Rattle.std.specs.Prelude.{◌≡◌, ◌<◌, ◌≤◌, length, IfOk, OnOk, All, Some, slice_get, Contains};
ghost use Rattle.std.specs.Bool.{MatchBool};
ghost use Rattle.mars_first.specs.LinksInside.{IsFalling, AreKeptLinks, LeadsTo, IsRoot, AreRoots, AreClasses, IsJoining, IsWith, AreSeveral, AreOne};

use mars_base::NoMemory;
use std::alloc::Global;

/// The classes of nodes: the head of each class, and for each node the place of its class.
#[derive(Drop)]
pub(crate) struct Classes {
    pub(crate) heads: Vec<usize>,
    pub(crate) slots: Vec<usize>,
}

/// The head of a place's class. Each second link on the way is made to skip one (Tarjan and van Leeuwen 1984).
fn find(links: &mut Vec<usize>, node: usize) -> usize
    requires node_in { node < length links.old.items }
    requires falling { IsFalling links.old.items }
    ensures kept { AreKeptLinks links.old.items links.new.items }
    ensures leads { LeadsTo links.old.items node result }
    ensures root { IsRoot links.new.items result }
{
    let mut at = node;
    while links[at] != at {
        let next = links[links[at]];
        links[at] = next;
        at = next;
    }
    at
}

/// The place of a head among the heads so far; it goes last where it is none of them. What `marks` has for a head that
/// isn't among them doesn't matter.
fn slot_of(marks: &mut Vec<usize>, heads: &mut Vec<usize>, head: usize) -> Result<usize, NoMemory>
    requires head_in { head < length marks.old.items }
    ensures size { length marks.new.items ≡ length marks.old.items }
    ensures heads { IfOk result (λ slot. IsWith heads.old.items head slot heads.new.items) }
{
    let mark = marks[head];
    if mark < heads.len() && heads[mark] == head {
        return Ok(mark);
    }
    let slot = heads.len();
    marks[head] = slot;
    heads.push(head)?;
    Ok(slot)
}

/// The classes of nodes.
pub(crate) fn classes_of(
    alloc: Global,
    links: &mut Vec<usize>,
    marks: &mut Vec<usize>,
    nodes: &[usize],
) -> Result<Classes, NoMemory>
    requires nodes_in { All (λ x. x < length links.old.items) nodes.now }
    requires falling { IsFalling links.old.items }
    requires marks { length marks.old.items ≡ length links.old.items }
    ensures kept { OnOk result (AreKeptLinks links.old.items links.new.items) }
    ensures marks { OnOk result (length marks.new.items ≡ length marks.old.items) }
    ensures classes { IfOk result (λ c. AreClasses links.old.items nodes.now c.heads.items c.slots.items) }
    ensures roots { IfOk result (λ c. AreRoots links.new.items c.heads.items) }
{
    let mut heads = Vec::new(alloc);
    let mut slots = Vec::new(alloc);
    for node in nodes {
        let head = find(links, *node);
        let slot = slot_of(marks, &mut heads, head)?;
        slots.push(slot)?;
    }
    Ok(Classes { heads, slots })
}

/// Whether heads aren't all one.
pub(crate) fn are_several(heads: &[usize]) -> bool
    ensures { MatchBool result (AreSeveral heads.now) (AreOne heads.now) }
{
    for head in heads {
        if *head != heads[0] {
            return true;
        }
    }
    false
}

/// The least of the heads.
fn least_of(heads: &[usize]) -> usize
    requires some { 0 < length heads.now }
    ensures least { All (λ head. result ≤ head) heads.now }
    ensures there { Contains heads.now result }
{
    let mut least = heads[0];
    for head in heads {
        if *head < least {
            least = *head;
        }
    }
    least
}

/// Links heads to the least of them.
pub(crate) fn join(links: &mut Vec<usize>, heads: &[usize])
    requires some { 0 < length heads.now }
    requires falling { IsFalling links.old.items }
    requires roots { AreRoots links.old.items heads.now }
    ensures { IsJoining links.old.items heads.now links.new.items }
{
    let least = least_of(heads);
    for head in heads {
        links[*head] = least;
    }
}
