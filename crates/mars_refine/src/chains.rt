//! Numbered entries that are looked up by their keys, from the last to the first.
ghost use Rattle.std.specs.Prelude.{◌≡◌, ◌<◌, ◌≤◌, ◌++◌, ◌∷◌, [], ℕ, length, slice_index_or, IfOk, OnOk};
ghost use Rattle.mars_refine.specs.Chains.{Keyed, IsLast};

use crate::writes::write_all;
use mars_base::{NoMemory, Numbers};
use std::alloc::Global;
use std::marker::Model;

/// The keys of entries, each entry linked to the one before it with its key. A link is one more than the entry, or 0 for none.
#[derive(Drop)]
pub struct Chains {
    lasts: Numbers,
    keys: Numbers,
    befores: Numbers,
}

impl Model for Chains {
    ghost use Rattle.std.specs.Prelude.{length};
    ghost use Rattle.mars_refine.specs.Chains.{Keyed, IsLinked};

    ghost Value = { Keyed };

    ghost view = { λ c. record { size = length c.lasts.items; keys = c.keys.items } };

    ghost invariant = { λ c. IsLinked c.lasts.items c.keys.items c.befores.items };
}

impl Chains {
    /// No entry, with keys below a size.
    pub fn new(alloc: Global, size: usize) -> Result<Chains, NoMemory>
        ensures { IfOk result (λ c. c ≡ record { size = size; keys = [] }) }
    {
        Ok(Chains {
            lasts: Numbers::zeros(alloc, size, 0)?,
            keys: Numbers::new(alloc, 0),
            befores: Numbers::new(alloc, 0),
        })
    }

    /// Adds the next entry.
    pub fn push(&mut self, key: usize) -> Result<(), NoMemory>
        requires { key < self.old.size }
        ensures { OnOk result (self.new ≡ record { size = self.old.size; keys = self.old.keys ++ key ∷ [] }) }
    {
        let count = self.keys.len() + 1;
        self.lasts.fit(count)?;
        self.befores.push(self.lasts.get(key))?;
        match self.keys.push(key) {
            Ok(()) => {
                self.lasts.set(key, count);
                Ok(())
            }
            Err(error) => {
                self.befores.truncate(count - 1);
                Err(error)
            }
        }
    }

    /// Removes all entries, in time linear in them.
    pub fn clear(&mut self)
        ensures { self.new ≡ record { size = self.old.size; keys = [] } }
    {
        write_all(&mut self.lasts, &self.keys.part(0, self.keys.len()), 0);
        self.keys.clear();
        self.befores.clear();
    }

    /// How many entries there are up to the last with the key.
    pub fn last(&self, key: usize) -> usize
        requires { key < self.now.size }
        ensures { IsLast self.now.keys key (length self.now.keys) result }
    {
        self.lasts.get(key)
    }

    /// How many entries there are up to the last with the same key before an entry.
    pub fn before(&self, entry: usize) -> usize
        requires { entry < length self.now.keys }
        ensures { IsLast self.now.keys (slice_index_or self.now.keys entry 0) entry result }
    {
        self.befores.get(entry)
    }
}
