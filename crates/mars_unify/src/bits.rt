//! Sets of pairs of nodes, a bit a pair. Structures are mostly walked in step, so that pairs lie on a diagonal, where
//! both numbers go on by equal steps: 64 neighbours there share an entry of a map, which so stays small and near.
ghost use Rattle.std.specs.Prelude.{◌≡◌, ℕ, ◌<◌, ◌||◌, not, IfOk, OnOk, OnErr};
ghost use Rattle.std.specs.HashMap.{IsUnchanged};
ghost use Rattle.mars_unify.specs.MetInside.{IsPair, SetsBit, same_pair, has_bit, is_set};

use mars_base::NoMemory;
use mars_store::NodeId;
use std::collections::HashMap;

/// The words of a set, each by its diagonal and by which 64 pairs there it has.
pub(crate) type Words = HashMap<(usize, usize), u64>;

/// Sets a pair's bit, and says whether it wasn't set.
pub(crate) fn set_bit(words: &mut Words, pair: (NodeId, NodeId)) -> Result<bool, NoMemory>
    ensures new { IfOk result (λ new. new ≡ not (is_set words.old pair)) }
    ensures ok { OnOk result ((other : ℕ × ℕ) → IsPair other → is_set words.new other ≡ (same_pair other pair || is_set words.old other)) }
    ensures err { OnErr result (IsUnchanged words.old words.new) }
{
    let (x, y) = (pair.0.number(), pair.1.number());
    set_at(words, (y.wrapping_sub(x), x / 64), x % 64)
}

/// Sets the bit at a place of a word, and says whether it wasn't set.
fn set_at(words: &mut Words, block: (usize, usize), place: usize) -> Result<bool, NoMemory>
    requires { place < 64 }
    ensures new { IfOk result (λ new. new ≡ not (has_bit words.old block place)) }
    ensures ok { OnOk result (SetsBit words.old words.new block place) }
    ensures err { OnErr result (IsUnchanged words.old words.new) }
{
    if let Some(word) = words.get_mut(&block) {
        let new = (*word >> place) & 1 == 0;
        *word |= 1 << place;
        return Ok(new);
    }
    words.insert(block, 1 << place)?;
    Ok(true)
}
