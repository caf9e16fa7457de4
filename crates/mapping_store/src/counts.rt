// How many mappings will be live once several are added.
ghost use Rattle.std.specs.Prelude.{◌≡◌, ◌≤◌, ℕ, length, map, filter, not};
ghost use Rattle.request_journal.specs.Past.{has_id, placed_from};
ghost use Rattle.mapping_store.specs.Kept.{placed_of};

use crate::book_mapping::BookMapping;
use crate::defaults::has_id;
use crate::entry::Entry;

/// How many entries have none of the ids.
pub(crate) fn count_others(entries: &[Entry], mappings: &[BookMapping]) -> usize
    ensures count { result
        ≡ length (filter (λ p. not (has_id mappings.now p.mapping.id)) (map placed_of entries.now)) }
    ensures few { result ≤ length entries.now }
{
    let mut count = 0;
    for i in 0..entries.len() {
        if !has_id(mappings, entries[i].id) {
            count += 1;
        }
    }
    count
}

/// How many ids there are.
pub(crate) fn count_ids(mappings: &[BookMapping]) -> usize
    ensures count { (number index : ℕ) → result ≡ length (placed_from number index mappings.now) }
    ensures few { result ≤ length mappings.now }
{
    let mut count = 0;
    for i in 0..mappings.len() {
        if !has_id(&mappings[i + 1..], mappings[i].id()) {
            count += 1;
        }
    }
    count
}
