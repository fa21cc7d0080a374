//! Numbers of nodes: those that a type of its own holds, and those that nodes get in another graph.
ghost use Rattle.std.specs.Prelude.{◌≡◌, ◌<◌, ◌≤◌, ◌+◌, ◌++◌, ℕ, length, map, slice_index, OnOk, OnErr, All};

use mars_base::NoMemory;

/// A type that holds the number of a node.
pub trait NodeNumber: Copy {
    ghost number_of: { Self → ℕ };

    /// The number, counted from 0.
    fn node_number(self) -> usize
        ensures { result ≡ number_of self };
}

impl NodeNumber for usize {
    ghost number_of = { λ number. number };

    fn node_number(self) -> usize {
        self
    }
}

/// Other numbers for nodes, for all of them or for some.
pub trait NewNumbers {
    ghost has_number: { Self → ℕ → Type 0 };

    ghost number_in: { Self → ℕ → ℕ };

    /// The number that a node gets.
    fn number(&self, node: usize) -> usize
        requires { has_number self.now node }
        ensures { result ≡ number_in self.now node };
}

impl NewNumbers for Vec<usize> {
    ghost has_number = { λ numbers node. node < length numbers.items };

    ghost number_in = { λ numbers node. slice_index numbers.items node };

    fn number(&self, node: usize) -> usize {
        self[node]
    }
}

/// Puts the numbers that nodes get last in a list. Out of memory leaves the list as it was.
pub fn push_renumbered<N: NewNumbers>(
    nodes: &[usize],
    numbers: &N,
    into: &mut Vec<usize>,
) -> Result<(), NoMemory>
    requires { All (N.has_number numbers.now) nodes.now }
    ensures ok { OnOk result (into.new.items ≡ into.old.items ++ map (N.number_in numbers.now) nodes.now) }
    ensures err { OnErr result (into.new.items ≡ into.old.items) }
{
    into.reserve(nodes.len())?;
    for node in nodes {
        into.push_reserved(numbers.number(*node));
    }
    Ok(())
}

/// Puts the numbers of nodes last in a list, which has room for them.
pub(crate) fn push_kids<K: NodeNumber>(kids: &[K], into: &mut Vec<usize>)
    requires room { into.old.len + length kids.now ≤ into.old.cap }
    ensures { into.new.items ≡ into.old.items ++ map K.number_of kids.now }
{
    for kid in kids {
        into.push_reserved(kid.node_number());
    }
}
