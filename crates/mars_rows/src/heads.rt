//! One node of each component, children first.
ghost use Rattle.std.specs.Prelude.{◌≡◌, ℕ, ◌<◌, length, map, IfOk};
ghost use Rattle.std.specs.List.{range_with_len};
ghost use Rattle.mars_comp.specs.Components.{component_of};
ghost use Rattle.mars_rows.specs.HeadsInside.{AreByPart, is_first_at};
ghost use Rattle.mars_rows.specs.IndexInside.{AreHeads};

use mars_base::NoMemory;
use mars_comp::Components;
use std::alloc::Global;

/// Each node with its component's number before it.
fn numbered(alloc: Global, parts: &Components) -> Result<Vec<(usize, usize)>, NoMemory>
    ensures { IfOk result (λ pairs. pairs.items ≡ map (λ n. (component_of parts.now n, n)) (range_with_len 0 (length parts.now))) }
{
    let mut pairs = Vec::new(alloc);
    for node in 0..parts.len() {
        pairs.push((parts.of(node), node))?;
    }
    Ok(pairs)
}

/// The nodes in the order of their components, each with its component's number before it.
fn in_order(alloc: Global, parts: &Components) -> Result<Vec<(usize, usize)>, NoMemory>
    ensures { IfOk result (λ pairs. AreByPart parts.now pairs.items) }
{
    let mut pairs = numbered(alloc, parts)?;
    pairs.sort()?;
    Ok(pairs)
}

/// Whether a component's first node is at a place.
fn is_first(pairs: &[(usize, usize)], place: usize) -> bool
    requires { place < length pairs.now }
    ensures { result ≡ is_first_at pairs.now place }
{
    place == 0 || pairs[place - 1].0 != pairs[place].0
}

/// The first node of each component.
fn firsts(
    alloc: Global,
    parts: &Components,
    pairs: &[(usize, usize)],
) -> Result<Vec<usize>, NoMemory>
    requires { AreByPart parts.now pairs.now }
    ensures { IfOk result (λ heads. AreHeads parts.now heads.items) }
{
    let _count = parts.len();
    let mut heads = Vec::new(alloc);
    for place in 0..pairs.len() {
        if is_first(pairs, place) {
            heads.push(pairs[place].1)?;
        }
    }
    Ok(heads)
}

/// One node of each component, children first. In the order of n log n for n nodes.
pub(crate) fn heads(alloc: Global, parts: &Components) -> Result<Vec<usize>, NoMemory>
    ensures { IfOk result (λ heads. AreHeads parts.now heads.items) }
{
    let pairs = in_order(alloc, parts)?;
    let found = firsts(alloc, parts, &pairs)?;
    Ok(found)
}
