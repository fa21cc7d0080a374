//! Places filed by key: each key leads to its places, in order.
ghost use Rattle.std.specs.Prelude.{◌↔◌, IsTrue, IfOk, OnOk, List};
ghost use Rattle.mars_rules.specs.declared.keys.HeadKey.{HeadKey};
ghost use Rattle.mars_rules.specs.Candidates.{AllowsLabel};
ghost use Rattle.mars_rules.specs.PlacesInside.{AreFiledPlaces, IsPlaceAdded, IsFirstOfKey, IsFirstFrom, IsRising, IsAllowedAt, IsFirstAllowed};

use crate::keys::HeadKey;
use indexmap::IndexMap;
use mars_base::NoMemory;
use mars_tree::Label;
use std::alloc::Global;

/// The places of each key, in order.
pub(crate) type Filed = IndexMap<HeadKey, Vec<usize>>;

/// Files places by their keys.
pub(crate) fn file_places(alloc: Global, keys: &[HeadKey]) -> Result<Filed, NoMemory>
    ensures { IfOk result (λ filed. AreFiledPlaces keys.now filed.entries) }
{
    let mut filed = IndexMap::new(alloc);
    for place in 0..keys.len() {
        file_place(alloc, &mut filed, keys[place], place)?;
    }
    Ok(filed)
}

/// Adds a place to those of its key.
fn file_place(alloc: Global, filed: &mut Filed, key: HeadKey, place: usize) -> Result<(), NoMemory>
    ensures { OnOk result (IsPlaceAdded filed.old.entries filed.new.entries key place) }
{
    let mut places = match filed.swap_remove(&key) {
        Some(places) => places,
        None => Vec::new(alloc),
    };
    places.push(place)?;
    filed.insert(key, places)?;
    Ok(())
}

/// The first place of a key from a place on. Takes no memory.
pub(crate) fn first_place(filed: &Filed, key: &HeadKey, from: usize) -> Option<usize>
    ensures { (keys : List HeadKey) → AreFiledPlaces keys filed.now.entries → IsFirstOfKey keys key.now from result }
{
    match filed.get(key) {
        Some(places) => first_from(places, from),
        None => None,
    }
}

/// The first of rising places from a place on.
pub(crate) fn first_from(places: &[usize], from: usize) -> Option<usize>
    ensures { IsRising places.now → IsFirstFrom places.now from result }
{
    let at = match places.binary_search(&from) {
        Ok(at) => at,
        Err(at) => at,
    };
    if at < places.len() {
        Some(places[at])
    } else {
        None
    }
}

/// The first of some places, from a number on, whose key has this label of a first argument, or none. Looks at each.
pub(crate) fn first_allowed(
    keys: &[HeadKey],
    places: &[usize],
    argument: Label,
    from: usize,
) -> Option<usize>
    ensures { IsFirstAllowed keys.now places.now argument from result }
{
    for at in 0..places.len() {
        let place = places[at];
        if place >= from && is_allowed_at(keys, place, argument) {
            return Some(place);
        }
    }
    None
}

/// Whether the key at a place has this label of a first argument, or none.
fn is_allowed_at(keys: &[HeadKey], place: usize, argument: Label) -> bool
    ensures { IsTrue result ↔ IsAllowedAt keys.now argument place }
{
    match keys.get(place) {
        Some(key) => is_allowed(key.first, argument),
        None => false,
    }
}

/// Whether the label of a first argument is this one, or there is none.
fn is_allowed(own: Option<Label>, argument: Label) -> bool
    ensures { IsTrue result ↔ AllowsLabel argument own }
{
    match own {
        Some(own) => own == argument,
        None => true,
    }
}
