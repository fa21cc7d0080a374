//! The places of rules by the label of the head, found without a hash where labels are few enough to lie apart.
ghost use Rattle.std.specs.Prelude.{◌≡◌, None, IfOk, IfSome};
ghost use Rattle.mars_rules.specs.PlacesInside.{places_under, AreFiledPlaces};

use crate::keys::HeadKey;
use crate::places::{Filed, file_places};
use mars_base::NoMemory;
use mars_tree::Label;
use std::alloc::Global;
use std::marker::Model;

/// How many slots are looked at before a label is looked up by its hash.
const PROBES: usize = 4;

/// No entry.
const VACANT: u32 = u32::MAX;

/// The places of each head's label, in order. A slot holds the number of an entry. No answer rests on the slots: the
/// entry's own key is compared, and a label that none of its slots leads to is looked up by its hash.
#[derive(Drop)]
pub(crate) struct Heads {
    filed: Filed,
    slots: Vec<u32>,
    mask: usize,
}

impl Model for Heads {
    ghost use Rattle.std.specs.Prelude.{List, ℕ};
    ghost use Rattle.std.specs.Global.{Vec};
    ghost use Rattle.mars_rules.specs.declared.keys.HeadKey.{HeadKey};

    ghost Value = { List (HeadKey × Vec ℕ) };

    ghost view = { λ h. h.filed.entries };
}

impl Heads {
    /// Files places by their keys.
    pub(crate) fn file(alloc: Global, keys: &[HeadKey]) -> Result<Heads, NoMemory>
        ensures { IfOk result (λ heads. AreFiledPlaces keys.now heads) }
    {
        let filed = file_places(alloc, keys)?;
        let mask = mask_for(filed.len());
        let slots = slots_of(alloc, &filed, mask)?;
        Ok(Heads { filed, slots, mask })
    }

    /// The places of a label, in order. Takes no memory.
    pub(crate) fn places(&self, label: Label) -> &[usize]
        ensures { result.now ≡ places_under self.now (record { label = label; first = None }) }
    {
        let key = HeadKey { label, first: None };
        match self.noted(&key) {
            Some(places) => places,
            None => self.hashed(&key),
        }
    }

    /// The places of a key that one of its slots leads to.
    fn noted(&self, key: &HeadKey) -> Option<&[usize]>
        ensures { IfSome result (λ places. places.now ≡ places_under self.now key.now) }
    {
        let home = slot_of(key.label);
        for probe in 0..PROBES {
            let places = self.noted_at(key, home.wrapping_add(probe) & self.mask);
            if places.is_some() {
                return places;
            }
        }
        None
    }

    /// The places of a key that a slot leads to.
    fn noted_at(&self, key: &HeadKey, slot: usize) -> Option<&[usize]>
        ensures { IfSome result (λ places. places.now ≡ places_under self.now key.now) }
    {
        match self.slots.get(slot) {
            Some(entry) => self.entry_of(key, *entry as usize),
            None => None,
        }
    }

    /// The places of a key where they are at this entry.
    fn entry_of(&self, key: &HeadKey, entry: usize) -> Option<&[usize]>
        ensures { IfSome result (λ places. places.now ≡ places_under self.now key.now) }
    {
        match self.filed.get_index(entry) {
            Some((own, places)) => { if *own == *key { Some(places) } else { None } }
            None => None,
        }
    }

    /// The places of a key, by its hash.
    #[inline(never)]
    fn hashed(&self, key: &HeadKey) -> &[usize]
        ensures { result.now ≡ places_under self.now key.now }
    {
        match self.filed.get(key) {
            Some(places) => places,
            None => &[],
        }
    }
}

/// The mask of as many slots as leave three of four vacant.
fn mask_for(entries: usize) -> usize {
    match entries.saturating_mul(4).checked_next_power_of_two() {
        Some(slots) => slots - 1,
        None => 0,
    }
}

/// The slot of a label, before it is masked. Most programs name their predicates one after the other, so that these lie
/// apart.
fn slot_of(label: Label) -> usize {
    match label {
        Label::Name { name, arity } => (name.0 as usize)
            .wrapping_mul(5)
            .wrapping_add(arity as usize),
        _ => 0,
    }
}

/// The slots of all entries.
fn slots_of(alloc: Global, filed: &Filed, mask: usize) -> Result<Vec<u32>, NoMemory> {
    let mut slots = Vec::new(alloc);
    slots.resize(mask.saturating_add(1), VACANT)?;
    for entry in 0..filed.len() {
        if let Some((key, _)) = filed.get_index(entry) {
            note(&mut slots, slot_of(key.label), mask, entry);
        }
    }
    Ok(slots)
}

/// Notes an entry in the first vacant one of its slots, and nowhere where none is vacant.
fn note(slots: &mut [u32], home: usize, mask: usize, entry: usize) {
    for probe in 0..PROBES {
        if let Some(slot) = slots.get_mut(home.wrapping_add(probe) & mask) {
            if *slot == VACANT {
                *slot = u32::try_from(entry).unwrap_or(VACANT);
                return;
            }
        }
    }
}
