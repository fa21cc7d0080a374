//! The variables of one rule or ask, numbered by first appearance.
ghost use Rattle.std.specs.Prelude.{◌≡◌, [], length, IfOk, OnOk};
ghost use Rattle.mars_clauses.specs.Short.{in_32_bits};
ghost use Rattle.mars_clauses.specs.Terms.{number_of, vars_with};

use crate::short_number;
use indexmap::IndexSet;
use mars_base::NoMemory;
use mars_term::NameIds;
use mars_tree::NameId;
use sqlite_items::Items;
use std::alloc::Global;
use std::marker::Model;

/// The variables so far, without doubles, and an index over them. Contracts see the list.
#[derive(Drop)]
pub struct VariableList {
    names: IndexSet<NameId>,
}

impl Model for VariableList {
    ghost use Rattle.std.specs.Prelude.{List};
    ghost use Rattle.mars_tree.specs.declared.label.NameId.{NameId};

    ghost Value = { List NameId };

    ghost view = { λ s. s.names.keys };
}

impl VariableList {
    /// No variable yet. Takes no memory.
    pub fn new(alloc: Global) -> VariableList
        ensures { result ≡ [] }
    {
        VariableList {
            names: IndexSet::new(alloc),
        }
    }

    /// The number of a variable in 32 bits; it goes last where it is new. Constant time.
    pub fn number(&mut self, name: NameId) -> Result<u32, NoMemory>
        ensures number { IfOk result (λ number. number ≡ in_32_bits (number_of name self.old)) }
        ensures known { OnOk result (self.new ≡ vars_with name self.old) }
    {
        let (place, _) = self.names.insert_full(name)?;
        Ok(short_number(place))
    }

    /// How many there are, in 32 bits.
    pub fn count(&self) -> u32
        ensures { result ≡ in_32_bits (length self.now) }
    {
        short_number(self.names.len())
    }

    /// The names of the variables, in order. Linear in them.
    pub fn to_names(&self, alloc: Global) -> Result<NameIds, NoMemory>
        ensures { IfOk result (λ names. names ≡ self.now) }
    {
        let mut names = Items::new(alloc);
        for place in 0..self.names.len() {
            names.push(self.names[place])?;
        }
        Ok(names)
    }
}
