//! The names that were there before a text, and those that it adds.
ghost use Rattle.std.specs.Prelude.{◌≡◌, ◌<◌, ◌+◌, ◌-◌, ◌^◌, nat_lt, ◌++◌, ◌∷◌, [], None, Some, map, length, slice_get, IfOk, OnOk, IsTrue};
ghost use Rattle.std.specs.Option.{option_map};
ghost use Rattle.mars_tree.specs.Names.{name_number, place_of, built_in_names};
ghost use Rattle.mars_clauses.specs.Short.{in_32_bits};
ghost use Rattle.mars_read.specs.NameLists.{joined_names};
ghost use Rattle.mars_read.specs.Spellings.{added_with, with_text_if_room};

use indexmap::IndexSet;
use mars_base::NoMemory;
use mars_clauses::short_number;
use mars_tree::{NameId, Names};
use std::alloc::Global;
use std::marker::Model;

/// A list of names that stays as it is, and further ones, which come after these. Most spellings come again soon, so a few
/// places are kept, each where a spelling's bytes say: they are looked at before a spelling is searched for by its hash.
#[derive(Drop)]
pub struct MoreNames<'a> {
    alloc: Global,
    /// The built-in ones where there are no others.
    known: Option<&'a Names>,
    /// How many of these there are.
    first: usize,
    added: IndexSet<Vec<u8>>,
    recent: [u32; 256],
}

impl<'a> Model for MoreNames<'a> {
    ghost use Rattle.mars_read.specs.NameLists.{NameLists};

    ghost Value = { NameLists };

    ghost use Rattle.mars_read.specs.MoreNamesInside.{name_lists, AreMoreNames};

    ghost view = { name_lists };

    ghost invariant = { AreMoreNames };
}

/// The number of a name that was added, in 32 bits.
fn number_after(first: usize, index: usize) -> NameId
    ensures { result.0 ≡ in_32_bits (first + index) }
{
    NameId(short_number(first.saturating_add(index)))
}

/// Where the place of a spelling is kept.
fn slot_of(text: &[u8]) -> usize
    ensures { result < 256 }
{
    match text {
        [] => 0,
        [only] => *only as usize,
        [first, .., last] => {
            let middle = text[text.len() / 2];
            let mixed = first
                .wrapping_mul(31)
                .wrapping_add(middle.wrapping_mul(17))
                .wrapping_add(last.wrapping_mul(5));
            mixed as usize
        }
    }
}

impl<'a> MoreNames<'a> {
    /// Nothing is added yet. Takes no memory.
    pub fn new(alloc: Global, known: &'a Names) -> MoreNames<'a>
        ensures known { result.known ≡ known.now }
        ensures added { result.added ≡ [] }
    {
        MoreNames {
            alloc,
            known: Some(known),
            first: known.len(),
            added: IndexSet::new(alloc),
            recent: [0; 256],
        }
    }

    /// The built-in names, and nothing is added yet. Takes no memory.
    pub fn built_in(alloc: Global) -> MoreNames<'a>
        ensures known { result.known ≡ built_in_names }
        ensures added { result.added ≡ [] }
    {
        MoreNames {
            alloc,
            known: None,
            first: Names::new(alloc).len(),
            added: IndexSet::new(alloc),
            recent: [0; 256],
        }
    }

    /// The place of a text among those that were there.
    #[inline(never)]
    fn known_id(&self, text: &[u8]) -> Option<NameId>
        ensures { option_map (λ id. id.0) result ≡ place_of text.now self.now.known }
    {
        match self.known {
            Some(names) => names.find(text),
            None => Names::new(self.alloc).find(text),
        }
    }

    /// Whether a text was added at this place.
    #[inline(always)]
    fn is_at(&self, index: usize, text: &[u8]) -> bool
        ensures { IsTrue result → slice_get self.now.added index ≡ Some text.now }
    {
        match self.added.get_index(index) {
            Some(found) => found.as_slice() == text,
            None => false,
        }
    }

    /// The place of a text among those that were added, by its hash, which is kept from now on.
    #[inline(never)]
    fn hashed_index_of(&mut self, text: &[u8]) -> Option<usize>
        ensures place { result ≡ place_of text.now self.old.added }
        ensures same { self.new ≡ self.old }
    {
        let found = self.added.get_index_of(text);
        if let Some(index) = found {
            self.recent[slot_of(text)] = short_number(index);
        }
        found
    }

    /// The place of a text among those that were added.
    #[inline(always)]
    fn index_of(&mut self, text: &[u8]) -> Option<usize>
        ensures place { result ≡ place_of text.now self.old.added }
        ensures same { self.new ≡ self.old }
    {
        let index = self.recent[slot_of(text)] as usize;
        if self.is_at(index, text) {
            return Some(index);
        }
        self.hashed_index_of(text)
    }

    /// Puts a new text last.
    #[inline(never)]
    fn add(&mut self, text: &[u8]) -> Result<NameId, NoMemory>
        requires new { place_of text.now (joined_names self.old) ≡ None }
        ensures place { IfOk result (λ id. id.0 ≡ in_32_bits (length (joined_names self.old))) }
        ensures known { OnOk result (self.new.known ≡ self.old.known) }
        ensures added { OnOk result (self.new.added ≡ self.old.added ++ text.now ∷ []) }
    {
        let id = number_after(self.first, self.added.len());
        self.added.insert(Vec::from_slice(self.alloc, text)?)?;
        Ok(id)
    }

    /// The number of a text in 32 bits, `None` exactly where it isn't listed.
    #[inline(always)]
    fn find(&mut self, text: &[u8]) -> Option<NameId>
        ensures number { option_map (λ id. id.0) result ≡ option_map in_32_bits (place_of text.now (joined_names self.old)) }
        ensures same { self.new ≡ self.old }
    {
        match self.index_of(text) {
            Some(index) => Some(number_after(self.first, index)),
            None => self.known_id(text),
        }
    }

    /// Whether a name's number holds the place of one more.
    fn has_room(&self) -> bool
        ensures { result ≡ nat_lt (length (joined_names self.now)) (2 ^ 32 - 1) }
    {
        self.first.saturating_add(self.added.len()) < u32::MAX as usize
    }

    /// The number of a text in 32 bits; it goes last where it is new.
    pub fn id(&mut self, text: &[u8]) -> Result<NameId, NoMemory>
        ensures place { IfOk result (λ id. id.0 ≡ in_32_bits (name_number text.now (joined_names self.old))) }
        ensures known { OnOk result (self.new.known ≡ self.old.known) }
        ensures added { OnOk result (self.new.added ≡ added_with text.now self.old.known self.old.added) }
    {
        match self.find(text) {
            Some(id) => Ok(id),
            None => self.add(text),
        }
    }

    /// Likewise, unless there are as many names as there can be.
    pub fn id_if_room(&mut self, text: &[u8]) -> Result<NameId, NoMemory>
        ensures place { IfOk result (λ id. id.0 ≡ in_32_bits (name_number text.now (joined_names self.old))) }
        ensures names { OnOk result (joined_names self.new ≡ with_text_if_room text.now (joined_names self.old)) }
    {
        match self.find(text) {
            Some(id) => Ok(id),
            None => {
                if self.has_room() {
                    self.add(text)
                } else {
                    Ok(NameId(u32::MAX))
                }
            }
        }
    }

    /// The names that were added.
    pub(crate) fn into_added(self) -> IndexSet<Vec<u8>>
        ensures { map (λ text. text.items) result.keys ≡ self.entry.added }
    {
        self.added
    }
}
