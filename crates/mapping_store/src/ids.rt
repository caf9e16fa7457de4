// Ids that are compared by their hashes, so that a long list takes no comparison of each pair.
ghost use Rattle.std.specs.Prelude.{◌≡◌, ◌++◌, map, IfOk, IsTrue, OnOk};
ghost use Rattle.mapping_store.specs.Ids.{all_differ, is_last, lasts_among};

use crate::book_mapping::BookMapping;
use crate::entry::Entry;
use key_groups::place::Place;
use key_groups::places::places_of;
use mapping_model::mapping_id::MappingId;
use std::alloc::{AllocError, Global};

/// For each id, whether none after it is equal.
pub fn lasts(alloc: Global, ids: &[MappingId]) -> Result<Vec<bool>, AllocError>
    ensures { IfOk result (λ lasts. lasts.items ≡ lasts_among ids.now) }
{
    let places = places_of(alloc, ids)?;
    let mut lasts = Vec::with_capacity(alloc, places.len())?;
    for place in &places {
        lasts.push(is_last(place))?;
    }
    Ok(lasts)
}

fn is_last(place: &Place) -> bool
    ensures { result ≡ is_last place.now }
{
    place.position == place.size
}

/// Whether no two of the ids are equal.
pub fn all_differ(alloc: Global, ids: &[MappingId]) -> Result<bool, AllocError>
    ensures { IfOk result (λ yes. yes ≡ all_differ ids.now) }
{
    let lasts = lasts(alloc, ids)?;
    for last in &lasts {
        if !*last {
            return Ok(false);
        }
    }
    Ok(true)
}

/// Adds the ids of the mappings.
pub fn push_ids(ids: &mut Vec<MappingId>, mappings: &[BookMapping]) -> Result<(), AllocError>
    ensures { OnOk result (ids.new.items ≡ ids.old.items ++ map (λ m. m.id) mappings.now) }
{
    for i in 0..mappings.len() {
        ids.push(mappings[i].id())?;
    }
    Ok(())
}

/// Whether the ids of the entries and of the mappings all differ. Where memory is out it answers no.
pub fn are_new(alloc: Global, entries: &[Entry], mappings: &[BookMapping]) -> bool
    ensures { IsTrue result
        → IsTrue (all_differ (map (λ e. e.id) entries.now ++ map (λ m. m.id) mappings.now)) }
{
    match try_are_new(alloc, entries, mappings) {
        Ok(are_new) => are_new,
        Err(_error) => false,
    }
}

fn try_are_new(
    alloc: Global,
    entries: &[Entry],
    mappings: &[BookMapping],
) -> Result<bool, AllocError>
    ensures { IfOk result (λ yes. yes
        ≡ all_differ (map (λ e. e.id) entries.now ++ map (λ m. m.id) mappings.now)) }
{
    let mut ids = Vec::new(alloc);
    for i in 0..entries.len() {
        ids.push(entries[i].id)?;
    }
    push_ids(&mut ids, mappings)?;
    all_differ(alloc, ids.as_slice())
}
