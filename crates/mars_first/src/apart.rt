//! The first path at which candidates differ.
ghost use Rattle.std.specs.Prelude.{◌≡◌, ◌<◌, ◌≤◌, length, map, IfOk, All, MatchOption, slice_index_or};
ghost use Rattle.mars_first.specs.PlacesInside.{ArePlaces, number_at};
ghost use Rattle.mars_first.specs.StagesInside.{IsSearchOf, IsRooted, AreOwn, AreTraced, AreRowsApart, NeverDiffer};

use crate::places::Places;
use crate::stages::{Search, advance, is_level, start};
use mars_base::NoMemory;
use std::alloc::Global;

/// The numbers of the rows of nodes.
fn rows_of(alloc: Global, places: &Places, nodes: &[usize]) -> Result<Vec<usize>, NoMemory>
    requires nodes_in { All (λ x. x < length places.now.numbers.items) nodes.now }
    ensures { IfOk result (λ rows. rows.items ≡ map (number_at places.now) nodes.now) }
{
    let mut rows = Vec::new(alloc);
    for node in nodes {
        rows.push(places.number(*node))?;
    }
    Ok(rows)
}

/// The rows to which slots lead.
fn rows_before(alloc: Global, slots: &[usize], rows: &[usize]) -> Result<Vec<usize>, NoMemory>
    requires slots_in { All (λ slot. slot < length rows.now) slots.now }
    ensures { IfOk result (λ nearer. nearer.items ≡ map (λ slot. slice_index_or rows.now slot 0) slots.now) }
{
    let mut nearer = Vec::new(alloc);
    for slot in slots {
        nearer.push(rows[*slot])?;
    }
    Ok(nearer)
}

/// The rows at the end of a stage's path, one for each candidate.
fn rows_along(
    alloc: Global,
    places: &Places,
    search: &Search,
    last: usize,
) -> Result<Vec<usize>, NoMemory>
    requires is { IsSearchOf places.now search.now }
    requires last_in { last < length search.now.stages.items }
    ensures { IfOk result (λ rows. AreTraced places.now search.now.stages.items search.now.classes.items last 0 rows.items) }
{
    let mut rows = rows_of(alloc, places, &search.stages[last].nodes)?;
    let mut at = last;
    while at > 0 {
        at = search.stages[at].from;
        rows = rows_before(alloc, &search.classes[at].slots, &rows)?;
    }
    Ok(rows)
}

/// The numbers of the rows that candidates have at the end of the first path at which these aren't all one; none where
/// there is no such path. Each stage costs its nodes, and the stages have about twice as many nodes as the candidates
/// lead to and these have kids, since of a class only one goes on.
pub(crate) fn rows_apart(
    alloc: Global,
    places: &Places,
    candidates: &[usize],
) -> Result<Option<Vec<usize>>, NoMemory>
    requires places { ArePlaces places.now }
    requires candidates_in { All (λ x. x < length places.now.numbers.items) candidates.now }
    requires some { 0 < length candidates.now }
    ensures { IfOk result (λ found. MatchOption found (NeverDiffer places.now candidates.now) (λ rows. AreRowsApart places.now candidates.now rows.items)) }
{
    let mut search = start(alloc, places, candidates)?;
    'stages: while search.classes.len() < search.stages.len() {
        let next = search.classes.len();
        if !is_level(places, &search.stages[next].nodes) {
            let rows = rows_along(alloc, places, &search, next)?;
            return Ok(Some(rows));
        }
        advance(alloc, places, &mut search)?;
    }
    Ok(None)
}
