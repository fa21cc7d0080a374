//! Pairs of nodes that are assumed equal, each once.
ghost use Rattle.std.specs.Prelude.{◌≡◌, ℕ, ◌<◌, ◌≤◌, ◌++◌, ◌∷◌, [], length, slice_index_or, OnOk, OnErr, IfOk};
ghost use Rattle.mars_unify.specs.MetInside.{with_pair, IsIndex};

use crate::bits::{Words, set_bit};
use mars_base::NoMemory;
use mars_store::NodeId;
use smallvec::SmallVec;
use std::alloc::Global;
use std::collections::HashMap;
use std::marker::Model;

/// A pair is found among so few by a look at each, and among more by its bit.
const FEW: usize = 8;

/// Pairs in the order in which they were met.
#[derive(Drop)]
pub(crate) struct Pairs {
    alloc: Global,
    list: SmallVec<(NodeId, NodeId), FEW>,
    index: Words,
}

impl Model for Pairs {
    ghost use Rattle.std.specs.Prelude.{List, ℕ, ◌≤◌, length};

    ghost Value = { List (ℕ × ℕ) };

    ghost use Rattle.mars_unify.specs.declared.pairs.TheConstants.{FEW};
    ghost use Rattle.mars_unify.specs.MetInside.{IsIndex};

    ghost view = { λ p. p.list.items };

    ghost invariant = { λ p. FEW ≤ length p.list.items → IsIndex p.index p.list.items };
}

impl Pairs {
    pub(crate) fn new(alloc: Global) -> Pairs
        ensures { result ≡ [] }
    {
        Pairs {
            alloc,
            list: SmallVec::new(alloc),
            index: HashMap::new(alloc),
        }
    }

    pub(crate) fn len(&self) -> usize
        ensures { result ≡ length self.now }
    {
        self.list.len()
    }

    pub(crate) fn get(&self, place: usize) -> (NodeId, NodeId)
        requires { place < length self.now }
        ensures { result ≡ slice_index_or self.now place result }
    {
        self.list.as_slice()[place]
    }

    /// Adds a pair that may be there.
    pub(crate) fn add(&mut self, pair: (NodeId, NodeId)) -> Result<(), NoMemory>
        ensures ok { OnOk result (self.new ≡ with_pair self.old pair) }
        ensures err { OnErr result (self.new ≡ self.old) }
    {
        if self.list.len() < FEW {
            self.add_to_few(pair)
        } else {
            self.add_to_many(pair)
        }
    }

    fn add_to_few(&mut self, pair: (NodeId, NodeId)) -> Result<(), NoMemory>
        requires { length self.old < FEW }
        ensures ok { OnOk result (self.new ≡ with_pair self.old pair) }
        ensures err { OnErr result (self.new ≡ self.old) }
    {
        if self.list.as_slice().contains(&pair) {
            return Ok(());
        }
        if self.list.len() + 1 == FEW {
            return self.push_and_index(pair);
        }
        self.list.push(pair)?;
        Ok(())
    }

    /// Adds a new pair, and makes the index.
    fn push_and_index(&mut self, pair: (NodeId, NodeId)) -> Result<(), NoMemory>
        requires { length self.old < FEW }
        ensures ok { OnOk result (self.new ≡ self.old ++ pair ∷ []) }
        ensures err { OnErr result (self.new ≡ self.old) }
    {
        let (x, y) = pair;
        self.index = index_of(self.alloc, self.list.as_slice(), (x, y))?;
        self.list.push((x, y))?;
        Ok(())
    }

    fn add_to_many(&mut self, pair: (NodeId, NodeId)) -> Result<(), NoMemory>
        requires { FEW ≤ length self.old }
        ensures ok { OnOk result (self.new ≡ with_pair self.old pair) }
        ensures err { OnErr result (self.new ≡ self.old) }
    {
        self.list.reserve(1)?;
        let (x, y) = pair;
        if set_bit(&mut self.index, (x, y))? {
            self.list.push_reserved((x, y));
        }
        Ok(())
    }
}

/// The bits of some pairs, and of one more.
fn index_of(
    alloc: Global,
    pairs: &[(NodeId, NodeId)],
    pair: (NodeId, NodeId),
) -> Result<Words, NoMemory>
    ensures { IfOk result (λ index. IsIndex index (pairs.now ++ pair ∷ [])) }
{
    let mut index = bits_of(alloc, pairs)?;
    set_bit(&mut index, pair)?;
    Ok(index)
}

fn bits_of(alloc: Global, pairs: &[(NodeId, NodeId)]) -> Result<Words, NoMemory>
    ensures { IfOk result (λ index. IsIndex index pairs.now) }
{
    let mut index = HashMap::new(alloc);
    for pair in pairs {
        set_bit(&mut index, *pair)?;
    }
    Ok(index)
}
