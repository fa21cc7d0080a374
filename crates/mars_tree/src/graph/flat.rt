//! The flat lists of a graph, as they grow by many nodes.
ghost use Rattle.std.specs.Prelude.{◌≡◌, ◌<◌, ◌+◌, ◌++◌, ◌^◌, length, map, take, OnOk, OnErr, All};
ghost use Rattle.mars_tree.specs.Graph.{label_of};
ghost use Rattle.mars_tree.specs.Renumbered.{HaveKids, renumbered_kids};
ghost use Rattle.mars_tree.specs.Stored.{kid_count, starts_from};

use crate::graph::Graph;
use crate::label::{Label, kid_places};
use crate::numbers::{NewNumbers, push_renumbered};
use mars_base::NoMemory;

/// Where the kids of each label begin, those of the first at `start`.
pub(super) fn push_starts(
    labels: &[Option<Label>],
    start: usize,
    into: &mut Vec<usize>,
) -> Result<(), NoMemory>
    requires { start + kid_count labels.now < 2 ^ 64 }
    ensures ok { OnOk result (into.new.items ≡ into.old.items ++ starts_from start labels.now) }
    ensures err { OnErr result (into.new.items ≡ into.old.items) }
    ensures full { OnErr result (into.old.cap < into.old.len + length labels.now) }
{
    into.reserve(labels.len())?;
    let mut next = start;
    for k in 0..labels.len() {
        into.push_reserved(next);
        next += kid_places(labels[k]);
    }
    Ok(())
}

/// The labels of nodes.
pub(super) fn push_labels(
    from: &Graph,
    nodes: &[usize],
    into: &mut Vec<Option<Label>>,
) -> Result<(), NoMemory>
    requires { All (λ n. n < length from.now) nodes.now }
    ensures ok { OnOk result (into.new.items ≡ into.old.items ++ map (label_of from.now) nodes.now) }
    ensures err { OnErr result (into.new.items ≡ into.old.items) }
    ensures full { OnErr result (into.old.cap < into.old.len + length nodes.now) }
{
    into.reserve(nodes.len())?;
    for node in nodes {
        into.push_reserved(from.label(*node));
    }
    Ok(())
}

/// The kids of nodes under other numbers, as many as memory has room for.
fn push_some<N: NewNumbers>(
    from: &Graph,
    nodes: &[usize],
    numbers: &N,
    into: &mut Vec<usize>,
) -> Result<(), NoMemory>
    requires nodes_in { All (λ n. n < length from.now) nodes.now }
    requires numbered { HaveKids (N.has_number numbers.now) from.now nodes.now }
    ensures ok { OnOk result (into.new.items ≡ into.old.items ++ renumbered_kids from.now (N.number_in numbers.now) nodes.now) }
    ensures more { take (length into.old.items) into.new.items ≡ into.old.items }
{
    for node in nodes {
        push_renumbered(from.kids(*node), numbers, into)?;
    }
    Ok(())
}

/// The kids of nodes under other numbers.
pub(super) fn push_all_kids<N: NewNumbers>(
    from: &Graph,
    nodes: &[usize],
    numbers: &N,
    into: &mut Vec<usize>,
) -> Result<(), NoMemory>
    requires nodes_in { All (λ n. n < length from.now) nodes.now }
    requires numbered { HaveKids (N.has_number numbers.now) from.now nodes.now }
    ensures ok { OnOk result (into.new.items ≡ into.old.items ++ renumbered_kids from.now (N.number_in numbers.now) nodes.now) }
    ensures err { OnErr result (into.new.items ≡ into.old.items) }
{
    let count = into.len();
    if push_some(from, nodes, numbers, into).is_err() {
        into.truncate(count);
        return Err(NoMemory);
    }
    Ok(())
}
