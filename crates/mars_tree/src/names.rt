//! The spellings of names: a list without doubles, searched through an index.
#![tactic(auto, unfolding(crate::specs::Names::built_in_names))]

ghost use Rattle.std.specs.Prelude.{◌≡◌, ◌-◌, ◌^◌, ◌<◌, length, slice_get, Some, IfOk, OnOk, OnErr, ◌++◌, ◌∷◌, [], None, map};
ghost use Rattle.std.specs.Option.{option_map};
ghost use Rattle.mars_tree.specs.Names.{built_in_names, place_of, name_number, with_text, AreDistinct};

mod equality;

use crate::label::NameId;
use indexmap::IndexSet;
use mars_base::NoMemory;
use std::alloc::Global;
use std::marker::Model;

/// The spellings that every list of names begins with.
const BUILT_IN: [&str; 13] = [
    "eq", "dif", "freeze", "val", "bound", "free", "out", "add", "sub", "mul", "div", "mod", "outm",
];

/// A list of distinct spellings. A name's number is the place of its spelling.
#[derive(Drop)]
pub struct Names {
    alloc: Global,
    added: IndexSet<Vec<u8>>,
}

impl Model for Names {
    ghost use Rattle.std.specs.Prelude.{List, ℕ};

    ghost Value = { List (List ℕ) };

    ghost use Rattle.mars_tree.specs.NamesInside.{names_of, AreNames};

    ghost view = { names_of };

    ghost invariant = { AreNames };
}

/// The place of a text in a short list.
fn place_in(names: &[&str], text: &[u8]) -> Option<usize>
    ensures { result ≡ place_of text.now (map (λ name. name.now) names.now) }
{
    names.iter().position(|name| text == name.as_bytes())
}

/// The place of a text among the built-in names.
fn built_in_place(text: &[u8]) -> Option<usize>
    ensures { result ≡ place_of text.now built_in_names }
{
    place_in(&BUILT_IN, text)
}

impl Names {
    /// The built-in names alone. Takes no memory.
    pub fn new(alloc: Global) -> Names
        ensures { result ≡ built_in_names }
    {
        Names {
            alloc,
            added: IndexSet::new(alloc),
        }
    }

    /// The place of a text, `None` exactly where it isn't listed.
    pub fn find(&self, text: &[u8]) -> Option<NameId>
        ensures { option_map (λ id. id.0) result ≡ place_of text.now self.now }
    {
        match built_in_place(text) {
            Some(place) => Some(NameId(place as u32)),
            None => match self.added.get_index_of(text) {
                Some(index) => Some(NameId((BUILT_IN.len() + index) as u32)),
                None => None,
            },
        }
    }

    /// The place of a text, which goes last where it is new.
    pub fn id(&mut self, text: &[u8]) -> Result<NameId, NoMemory>
        requires { length self.old < 2 ^ 32 - 1 }
        ensures place { IfOk result (λ id. id.0 ≡ name_number text.now self.old) }
        ensures names { OnOk result (self.new ≡ with_text text.now self.old) }
        ensures err { OnErr result (self.new ≡ self.old) }
    {
        match self.find(text) {
            Some(id) => Ok(id),
            None => self.add(text),
        }
    }

    /// Puts a new text last.
    fn add(&mut self, text: &[u8]) -> Result<NameId, NoMemory>
        requires new { place_of text.now self.old ≡ None }
        requires room { length self.old < 2 ^ 32 - 1 }
        ensures place { IfOk result (λ id. id.0 ≡ length self.old) }
        ensures names { OnOk result (self.new ≡ self.old ++ text.now ∷ []) }
        ensures err { OnErr result (self.new ≡ self.old) }
    {
        let id = NameId(self.len() as u32);
        self.added.insert(Vec::from_slice(self.alloc, text)?)?;
        Ok(id)
    }

    /// The spelling at a place.
    pub fn text(&self, id: NameId) -> &[u8]
        requires { id.0 < length self.now }
        ensures { slice_get self.now id.0 ≡ Some result.now }
    {
        let place = id.0 as usize;
        if place < BUILT_IN.len() {
            BUILT_IN[place].as_bytes()
        } else {
            self.added[place - BUILT_IN.len()].as_slice()
        }
    }

    /// How many names there are. Takes no memory.
    pub fn len(&self) -> usize
        ensures len { result ≡ length self.now }
        ensures distinct { AreDistinct self.now }
        ensures bound { length self.now < 2 ^ 32 }
    {
        BUILT_IN.len() + self.added.len()
    }
}
