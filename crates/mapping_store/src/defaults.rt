// The mappings that a book is opened with, which a reset makes live again.
ghost use Rattle.std.specs.Prelude.{◌≡◌, ◌+◌, ◌<◌, ◌≤◌, [], ◌∷◌, ◌++◌, cond, length, map};
ghost use Rattle.std.specs.Prelude.{All, IfOk, IsPermutation, vec_len};
ghost use Rattle.std.specs.Vec.{vec_capacity};
ghost use Rattle.request_journal.specs.Past.{defaults_from, has_id, placed_from};
ghost use Rattle.mapping_store.specs.Kept.{AreKept, Fits, lasts_of, placed_of};

use crate::book_mapping::BookMapping;
use crate::entries::sort;
use crate::entry::Entry;
use crate::ids;
use crate::ids::push_ids;
use mapping_model::mapping_id::MappingId;
use request_journal::mapping::Mapping;
use request_match::ready_mapping::ReadyMapping;
use std::alloc::{AllocError, Global};

/// The mappings under their own ids, or under those of their indexes.
pub fn named(alloc: Global, mappings: Vec<ReadyMapping>) -> Result<Vec<BookMapping>, AllocError>
    ensures { IfOk result (λ named. named.items ≡ defaults_from 0 mappings.items) }
{
    let mut named = Vec::with_capacity(alloc, mappings.len())?;
    let mut index = 0;
    for ready in mappings {
        let id = match ready.spec().id {
            Some(id) => id,
            None => MappingId::of_default(alloc, index)?,
        };
        named.push(BookMapping::new(alloc, id, ready)?)?;
        index += 1;
    }
    Ok(named)
}

/// The mappings, which share their specifications.
pub fn copies(alloc: Global, mappings: &[BookMapping]) -> Result<Vec<Mapping>, AllocError>
    ensures { IfOk result (λ copies. copies.items ≡ mappings.now) }
{
    let mut copies = Vec::with_capacity(alloc, mappings.len())?;
    for i in 0..mappings.len() {
        copies.push(mappings[i].mapping()?)?;
    }
    Ok(copies)
}

/// For each mapping, whether none after it has its id.
pub fn lasts(alloc: Global, mappings: &[BookMapping]) -> Result<Vec<bool>, AllocError>
    ensures { IfOk result (λ lasts. lasts.items ≡ lasts_of mappings.now) }
{
    let mut ids = Vec::new(alloc);
    push_ids(&mut ids, mappings)?;
    let lasts = ids::lasts(alloc, ids.as_slice())?;
    Ok(lasts)
}

/// Whether one of the mappings has this id.
pub fn has_id(mappings: &[BookMapping], id: MappingId) -> bool
    ensures { result ≡ has_id mappings.now id }
{
    for i in 0..mappings.len() {
        if mappings[i].id().same(id) {
            return true;
        }
    }
    false
}

/// Adds the defaults, by the event with this number, to entries that are empty. Takes no memory.
pub fn put_defaults(entries: &mut Vec<Entry>, number: u64, defaults: &[BookMapping], lasts: &[bool])
    requires empty { entries.old.items ≡ [] }
    requires none { vec_len entries.old ≡ 0 }
    requires room { length defaults.now ≤ vec_capacity entries.old }
    requires lasts { lasts.now ≡ lasts_of defaults.now }
    ensures kept { AreKept defaults.now entries.new.items }
    ensures added { IsPermutation (placed_from number 0 defaults.now) (map placed_of entries.new.items) }
    ensures capacity { vec_capacity entries.old ≤ vec_capacity entries.new }
{
    push_defaults(entries, number, defaults, lasts);
    sort(entries);
}

/// Adds the defaults in their order.
fn push_defaults(entries: &mut Vec<Entry>, number: u64, defaults: &[BookMapping], lasts: &[bool])
    requires empty { entries.old.items ≡ [] }
    requires none { vec_len entries.old ≡ 0 }
    requires room { length defaults.now ≤ vec_capacity entries.old }
    requires lasts { lasts.now ≡ lasts_of defaults.now }
    ensures fit { All (Fits defaults.now) entries.new.items }
    ensures added { map placed_of entries.new.items ≡ placed_from number 0 defaults.now }
    ensures capacity { vec_capacity entries.old ≤ vec_capacity entries.new }
{
    for at in 0..defaults.len() {
        push_if(lasts[at], entries, Entry::of_default(number, at, defaults));
    }
}

fn push_if(is_wanted: bool, entries: &mut Vec<Entry>, entry: Entry)
    requires { vec_len entries.old < vec_capacity entries.old }
    ensures items { entries.new.items ≡ entries.old.items ++ cond is_wanted (entry ∷ []) [] }
    ensures len { vec_len entries.new ≤ vec_len entries.old + 1 }
    ensures capacity { vec_capacity entries.old ≤ vec_capacity entries.new }
{
    if is_wanted {
        if let Err(_refused) = entries.push(entry) {
            unreachable!()
        }
    }
}
