//! Which pairs a wake looks at, and which of them are known.
ghost use Rattle.std.specs.Prelude.{◌≡◌, ℕ, ◌<◌, ◌≤◌, [], length, drop, slice_index, All, Contains, IfOk, OnOk};
ghost use Rattle.std.specs.List.Sorted.{IsNonDecreasing};
ghost use Rattle.mars_watch.specs.Watched.{CutAt};
ghost use Rattle.mars_watch.specs.Gathered.{AreGathered, AreRising, AreInOrder};
ghost use Rattle.mars_frozen.specs.Freezing.{HasBoth};
ghost use Rattle.mars_frozen.specs.FrozenInside.{AreSettled, AreFound, IsLookedAt, IsPairSettled, goals_of};

use mars_base::NoMemory;
use mars_store::{NodeId, Store};
use mars_watch::{Watchers, once_each};
use std::alloc::Global;

/// Appends the numbers from a number on.
pub(crate) fn add_unfiled(
    numbers: &[usize],
    filed: usize,
    touched: &mut Vec<usize>,
) -> Result<(), NoMemory>
    requires { AreRising numbers.now }
    ensures kept { (number : ℕ) → Contains touched.old.items number → Contains touched.new.items number }
    ensures added { OnOk result ((place : ℕ) → place < length numbers.now → filed ≤ slice_index numbers.now place → Contains touched.new.items (slice_index numbers.now place)) }
{
    let mut place = numbers.len();
    while place > 0 && numbers[place - 1] >= filed {
        place -= 1;
        touched.push(numbers[place])?;
    }
    Ok(())
}

/// Looks at the pairs of some numbers: gives the places of those that are known, and lets the others wait.
pub(crate) fn known_places(
    alloc: Global,
    store: &Store,
    pairs: &[(NodeId, NodeId)],
    numbers: &[usize],
    touched: &[usize],
    watchers: &mut Watchers,
) -> Result<Vec<usize>, NoMemory>
    requires inside { All (HasBoth store.now) pairs.now }
    requires sizes { length numbers.now ≡ length pairs.now }
    requires rising { AreRising numbers.now }
    requires touched { AreSettled store.now pairs.now numbers.now touched.now watchers.old [] }
    ensures cut { CutAt watchers.old watchers.new }
    ensures found { IfOk result (λ places. AreFound store.now pairs.now numbers.now watchers.new places.items) }
{
    let mut found = Vec::new(alloc);
    look_at_all(store, pairs, numbers, touched, watchers, &mut found)?;
    found.sort_unstable();
    once_each(alloc, pairs.len(), &found)
}

/// Looks at the pairs of some numbers.
fn look_at_all(
    store: &Store,
    pairs: &[(NodeId, NodeId)],
    numbers: &[usize],
    touched: &[usize],
    watchers: &mut Watchers,
    found: &mut Vec<usize>,
) -> Result<(), NoMemory>
    requires inside { All (HasBoth store.now) pairs.now }
    requires sizes { length numbers.now ≡ length pairs.now }
    requires rising { AreRising numbers.now }
    requires touched { AreSettled store.now pairs.now numbers.now touched.now watchers.old found.old.items }
    ensures cut { CutAt watchers.old watchers.new }
    ensures settled { OnOk result (AreSettled store.now pairs.now numbers.now [] watchers.new found.new.items) }
{
    for &number in touched {
        look_at(store, pairs, numbers, number, watchers, found)?;
    }
    Ok(())
}

/// Looks at the pair of a number, unless it left.
fn look_at(
    store: &Store,
    pairs: &[(NodeId, NodeId)],
    numbers: &[usize],
    number: usize,
    watchers: &mut Watchers,
    found: &mut Vec<usize>,
) -> Result<(), NoMemory>
    requires inside { All (HasBoth store.now) pairs.now }
    requires sizes { length numbers.now ≡ length pairs.now }
    requires rising { AreRising numbers.now }
    ensures cut { CutAt watchers.old watchers.new }
    ensures looked { OnOk result (IsLookedAt store.now pairs.now numbers.now number watchers.old watchers.new found.old.items found.new.items) }
{
    match numbers.binary_search(&number) {
        Ok(place) => settle(store, pairs, place, number, watchers, found),
        Err(_) => Ok(()),
    }
}

/// Notes the place of a pair that is known, and lets another wait at its variable.
fn settle(
    store: &Store,
    pairs: &[(NodeId, NodeId)],
    place: usize,
    number: usize,
    watchers: &mut Watchers,
    found: &mut Vec<usize>,
) -> Result<(), NoMemory>
    requires inside { All (HasBoth store.now) pairs.now }
    requires within { place < length pairs.now }
    ensures cut { CutAt watchers.old watchers.new }
    ensures settled { OnOk result (IsPairSettled store.now pairs.now place number watchers.old watchers.new found.old.items found.new.items) }
{
    let (on, _goal) = pairs[place];
    match store.root_label(on) {
        Some(_label) => found.push(place)?,
        None => watchers.watch(store.deref(on), number)?,
    }
    Ok(())
}

/// The goals at places, in order.
pub(crate) fn goals_at(
    alloc: Global,
    pairs: &[(NodeId, NodeId)],
    places: &[usize],
) -> Result<Vec<NodeId>, NoMemory>
    requires { All (λ place. place < length pairs.now) places.now }
    ensures { IfOk result (λ goals. goals.items ≡ goals_of pairs.now places.now) }
{
    let mut goals = Vec::new(alloc);
    for &place in places {
        let (_on, goal) = pairs[place];
        goals.push(goal)?;
    }
    Ok(goals)
}
