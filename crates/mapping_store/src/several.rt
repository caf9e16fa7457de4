// Several mappings that one event adds, one after the other.
ghost use Rattle.std.specs.Prelude.{◌+◌, ◌≤◌, List, map, All, AllPairs, vec_len};
ghost use Rattle.std.specs.List.{IsDistinct};
ghost use Rattle.std.specs.Vec.{vec_capacity};
ghost use Rattle.request_journal.specs.declared.mapping.Mapping.{Mapping};
ghost use Rattle.mapping_store.specs.Kept.{Adds, Fits, IsBefore, have_one_id, placed_of};

use crate::book_mapping::BookMapping;
use crate::entries::{put_last, sort};
use crate::entry::Entry;
use crate::ids::are_new;

/// Adds the mappings. It needs no memory, but has some for a while to see whether their ids are new: where it is out,
/// each id is looked for among all.
pub fn put_all(entries: &mut Vec<Entry>, number: u64, mappings: Vec<BookMapping>)
    requires ids { IsDistinct have_one_id entries.old.items }
    requires room { vec_len entries.old + vec_len mappings ≤ vec_capacity entries.old }
    ensures in_order { AllPairs IsBefore entries.new.items }
    ensures ids { IsDistinct have_one_id entries.new.items }
    ensures fit { (defaults : List Mapping) → All (Fits defaults) entries.old.items
        → All (Fits defaults) entries.new.items }
    ensures added { Adds number (map placed_of entries.old.items) mappings.items (map placed_of entries.new.items) }
    ensures capacity { vec_capacity entries.old ≤ vec_capacity entries.new }
{
    replace_all(entries, number, mappings);
    sort(entries);
}

/// Adds the mappings at the end, in any order.
fn replace_all(entries: &mut Vec<Entry>, number: u64, mappings: Vec<BookMapping>)
    requires ids { IsDistinct have_one_id entries.old.items }
    requires room { vec_len entries.old + vec_len mappings ≤ vec_capacity entries.old }
    ensures ids { IsDistinct have_one_id entries.new.items }
    ensures fit { (defaults : List Mapping) → All (Fits defaults) entries.old.items
        → All (Fits defaults) entries.new.items }
    ensures added { Adds number (map placed_of entries.old.items) mappings.items (map placed_of entries.new.items) }
    ensures capacity { vec_capacity entries.old ≤ vec_capacity entries.new }
{
    let are_new = are_new(
        *entries.allocator(),
        entries.as_slice(),
        mappings.as_slice(),
    );
    let mut index = 0;
    for mapping in mappings {
        put_last(entries, Entry::own(number, index, mapping), are_new);
        index += 1;
    }
}
