//! Equality of lists of names, spelling by spelling, and their hash.
ghost use Rattle.std.specs.Prelude.{◌≡◌, ◌↔◌, IsTrue, length};

use crate::label::NameId;
use crate::names::Names;
use std::hash::{Hash, Hasher};

/// Whether two texts are one.
fn is_same_text(left: &[u8], right: &[u8]) -> bool
    ensures { IsTrue result ↔ (left.now ≡ right.now) }
{
    left == right
}

/// Whether two lists of equally many names have the same spellings.
fn agree(left: &Names, right: &Names) -> bool
    requires { length left.now ≡ length right.now }
    ensures { IsTrue result ↔ (left.now ≡ right.now) }
{
    for place in 0..left.len() {
        let name = NameId(place as u32);
        if !is_same_text(left.text(name), right.text(name)) {
            return false;
        }
    }
    true
}

impl PartialEq for Names {
    ghost use Rattle.mars_tree.specs.NamesEquality.{same_names};
    ghost use Rattle.mars_tree.specs.EqualityLaws.{names_partial_equivalence};

    ghost eq = { same_names };

    ghost laws = { names_partial_equivalence };

    /// Whether two lists have the same spellings in the same order. Linear in the spellings.
    fn eq(&self, other: &Names) -> bool
        ensures value { result ≡ same_names self.now other.now }
        ensures same { IsTrue result ↔ (self.now ≡ other.now) }
    {
        self.len() == other.len() && agree(self, other)
    }
}

impl Eq for Names {
    ghost use Rattle.mars_tree.specs.EqualityLaws.{names_equivalence};

    ghost laws = { names_equivalence };
}

impl Hash for Names {
    ghost use Rattle.mars_tree.specs.NamesEquality.{names_writes};
    ghost use Rattle.mars_tree.specs.EqualityLaws.{names_alike};

    ghost hash_input = { names_writes };

    ghost respects_eq = { names_alike };

    /// Hashes how many spellings there are, and then each.
    fn hash<H: Hasher>(&self, state: &mut H) {
        state.write_usize(self.len());
        for place in 0..self.len() {
            self.text(NameId(place as u32)).hash(state);
        }
    }
}
