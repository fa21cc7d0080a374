//! What waits at the variables that were bound, and numbers, each once.
ghost use Rattle.std.specs.Prelude.{◌<◌, drop, All, IfOk, OnOk};
ghost use Rattle.std.specs.List.Sorted.{IsNonDecreasing};
ghost use Rattle.mars_watch.specs.Gathered.{AreGathered, AreInOrder};

use crate::watchers::Watchers;
use mars_base::NoMemory;
use mars_store::Store;
use std::alloc::Global;

/// Appends the items that wait at a variable of a binding, from a place of the trail on. Linear in these bindings and items.
pub fn gather_bound(
    watchers: &Watchers,
    store: &Store,
    seen: usize,
    gathered: &mut Vec<usize>,
) -> Result<(), NoMemory>
    ensures { OnOk result (AreGathered watchers.now (drop seen store.now.bound) gathered.new.items) }
{
    for place in seen..store.mark().bound {
        let (variable, _node) = store.equation(place);
        watchers.gather(variable, gathered)?;
    }
    Ok(())
}

/// Numbers that don't fall, below a size, each once. Linear in these.
pub fn once_each(alloc: Global, size: usize, found: &[usize]) -> Result<Vec<usize>, NoMemory>
    requires sorted { IsNonDecreasing found.now }
    requires within { All (λ place. place < size) found.now }
    ensures { IfOk result (λ places. AreInOrder size found.now places.items) }
{
    let mut places = Vec::new(alloc);
    let mut next = 0;
    for &place in found {
        if place >= next {
            places.push(place)?;
            next = place + 1;
        }
    }
    Ok(places)
}
