//! Whether two nodes are the same tree, finite or infinite.
ghost use Rattle.std.specs.Prelude.{◌≡◌, ◌<◌, ◌≤◌, ◌↔◌, IsTrue, ℕ, length, IfOk, OnOk, Contains};
ghost use Rattle.mars_tree.specs.Graph.{IsGround, Same, kids_of};
ghost use Rattle.mars_tree.specs.Kids.{IsKidPair};
ghost use Rattle.mars_tree.specs.Pairs.{PairsGrow};

use crate::graph::Graph;
use crate::label::is_same;
use crate::pairs::Pairs;
use mars_base::NoMemory;
use std::alloc::Global;

/// Meets the pairs of kids of two nodes with equally many.
fn meet_kids(a: &Graph, i: usize, b: &Graph, j: usize, pairs: &mut Pairs) -> Result<(), NoMemory>
    requires i_in { i < length a.now }
    requires j_in { j < length b.now }
    requires arity { length (kids_of a.now i) ≡ length (kids_of b.now j) }
    requires height { pairs.old.height ≡ length a.now }
    requires width { pairs.old.width ≡ length b.now }
    ensures grows { OnOk result (PairsGrow (IsKidPair a.now i b.now j) pairs.old pairs.new) }
    ensures kids { OnOk result ((pair : ℕ × ℕ) → IsKidPair a.now i b.now j pair → Contains pairs.new.pairs pair) }
{
    for k in 0..a.arity(i) {
        pairs.meet(a.kid(i, k), b.kid(j, k))?;
    }
    Ok(())
}

/// Whether two nodes are the same tree: the labels agree along every path. Each pair of nodes is met once, so time and
/// memory are in proportion to the pairs that are met. The only error is out of memory.
pub fn same(alloc: Global, a: &Graph, n: usize, b: &Graph, m: usize) -> Result<bool, NoMemory>
    requires n_in { n < length a.now }
    requires m_in { m < length b.now }
    requires a_ground { IsGround a.now }
    requires b_ground { IsGround b.now }
    ensures { IfOk result (λ yes. IsTrue yes ↔ Same a.now n b.now m) }
{
    let mut pairs = Pairs::new(alloc, a.len(), b.len());
    pairs.meet(n, m)?;
    let mut next = 0;
    while next < pairs.len() {
        let (i, j) = pairs.get(next);
        if !is_same(a.label(i), b.label(j)) {
            return Ok(false);
        }
        meet_kids(a, i, b, j, &mut pairs)?;
        next += 1;
    }
    Ok(true)
}
