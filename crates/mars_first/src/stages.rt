//! Stages: the nodes at the ends of paths, one node for each class of nodes that are taken for one.
ghost use Rattle.std.specs.Prelude.{◌≡◌, ◌<◌, length, IfOk, OnOk, All, Some, slice_get, slice_index_or};
ghost use Rattle.std.specs.Bool.{MatchBool};
ghost use Rattle.mars_first.specs.PlacesInside.{ArePlaces, kids_of_place};
ghost use Rattle.mars_first.specs.StagesInside.{IsSearchOf, IsRooted, IsFirstStage, AreOwn, AreLevel, AreUneven, AreKids, HasKidStages, work_of};
ghost use Rattle.mars_first.specs.declared.stages.Stage.{Stage};

use crate::links::{Classes, are_several, classes_of, join};
use crate::places::Places;
use mars_base::NoMemory;
use std::alloc::Global;

/// The nodes at the end of a path: that of the stage from which it comes, and a kid's number.
#[derive(Drop)]
pub(crate) struct Stage {
    pub(crate) from: usize,
    pub(crate) kid: usize,
    pub(crate) nodes: Vec<usize>,
}

/// Stages in the order of their paths, the classes of those that are done, and the links that make classes.
#[derive(Drop)]
pub(crate) struct Search {
    pub(crate) stages: Vec<Stage>,
    pub(crate) classes: Vec<Classes>,
    links: Vec<usize>,
    marks: Vec<usize>,
}

/// Whether one row is at all nodes.
pub(crate) fn is_level(places: &Places, nodes: &[usize]) -> bool
    requires some { 0 < length nodes.now }
    requires nodes_in { All (λ x. x < length places.now.numbers.items) nodes.now }
    ensures { MatchBool result (AreLevel places.now nodes.now) (AreUneven places.now nodes.now) }
{
    let first = places.number(nodes[0]);
    for node in nodes {
        if places.number(*node) != first {
            return false;
        }
    }
    true
}

/// The kids of nodes that have one number.
fn kids_with(
    alloc: Global,
    places: &Places,
    nodes: &[usize],
    kid: usize,
) -> Result<Vec<usize>, NoMemory>
    requires nodes_in { All (λ x. x < length places.now.kids.items) nodes.now }
    requires wide { All (λ x. kid < length (kids_of_place places.now x)) nodes.now }
    ensures { IfOk result (λ kids. AreKids places.now kid nodes.now kids.items) }
{
    let mut kids = Vec::new(alloc);
    for node in nodes {
        kids.push(places.kids(*node)[kid])?;
    }
    Ok(kids)
}

/// Puts the stages of the kids of heads last, which all have equally many.
fn push_kid_stages(
    alloc: Global,
    places: &Places,
    heads: &[usize],
    from: usize,
    stages: &mut Vec<Stage>,
) -> Result<(), NoMemory>
    requires some { 0 < length heads.now }
    requires heads_in { All (λ x. x < length places.now.kids.items) heads.now }
    requires wide { All (λ x. length (kids_of_place places.now x) ≡ length (kids_of_place places.now (slice_index_or heads.now 0 0))) heads.now }
    ensures { OnOk result (HasKidStages places.now from heads.now (length (kids_of_place places.now (slice_index_or heads.now 0 0))) stages.old.items stages.new.items) }
{
    for kid in 0..places.kids(heads[0]).len() {
        let nodes = kids_with(alloc, places, heads, kid)?;
        stages.push(Stage { from, kid, nodes })?;
    }
    Ok(())
}

/// Finds the classes of the first stage that isn't done, which is level, and goes on with the kids of their heads.
pub(crate) fn advance(alloc: Global, places: &Places, search: &mut Search) -> Result<(), NoMemory>
    requires places { ArePlaces places.now }
    requires is { IsSearchOf places.now search.old }
    requires more { length search.old.classes.items < length search.old.stages.items }
    requires level { (stage : Stage) → slice_get search.old.stages.items (length search.old.classes.items) ≡ Some stage → AreLevel places.now stage.nodes.items }
    ensures is { OnOk result (IsSearchOf places.now search.new) }
    ensures root { OnOk result (slice_get search.new.stages.items 0 ≡ slice_get search.old.stages.items 0) }
    ensures less { OnOk result (work_of places.now search.new < work_of places.now search.old) }
{
    let next = search.classes.len();
    let classes = classes_of(
        alloc,
        &mut search.links,
        &mut search.marks,
        &search.stages[next].nodes,
    )?;
    if !are_several(&classes.heads) {
        search.classes.push(classes)?;
        return Ok(());
    }
    join(&mut search.links, &classes.heads);
    push_kid_stages(alloc, places, &classes.heads, next, &mut search.stages)?;
    search.classes.push(classes)?;
    Ok(())
}

/// As many links as places, each to its own place.
pub(crate) fn own_links(alloc: Global, count: usize) -> Result<Vec<usize>, NoMemory>
    ensures { IfOk result (λ links. AreOwn count links.items) }
{
    let mut links = Vec::new(alloc);
    for place in 0..count {
        links.push(place)?;
    }
    Ok(links)
}

/// The candidates as the one stage, with the empty path.
fn first_stage(alloc: Global, candidates: &[usize]) -> Result<Vec<Stage>, NoMemory>
    ensures { IfOk result (λ stages. IsFirstStage candidates.now stages.items) }
{
    let mut nodes = Vec::new(alloc);
    nodes.extend_from_slice(candidates)?;
    let mut stages = Vec::new(alloc);
    stages.push(Stage {
        from: 0,
        kid: 0,
        nodes,
    })?;
    Ok(stages)
}

/// A search in which no stage is done, from candidates.
pub(crate) fn start(
    alloc: Global,
    places: &Places,
    candidates: &[usize],
) -> Result<Search, NoMemory>
    requires candidates_in { All (λ x. x < length places.now.numbers.items) candidates.now }
    requires some { 0 < length candidates.now }
    ensures is { IfOk result (λ search. IsSearchOf places.now search) }
    ensures root { IfOk result (λ search. IsRooted candidates.now search) }
{
    let count = places.numbers.len();
    let links = own_links(alloc, count)?;
    let marks = own_links(alloc, count)?;
    let stages = first_stage(alloc, candidates)?;
    let classes = Vec::new(alloc);
    Ok(Search {
        stages,
        classes,
        links,
        marks,
    })
}
