// The entries of a store.
ghost use Rattle.std.specs.Prelude.{◌≡◌, ◌≢◌, ◌+◌, ◌<◌, ◌≤◌, [], ◌∷◌, ◌++◌, length, All, IsTrue, AllPairs, MatchOption};
ghost use Rattle.std.specs.Prelude.{IsPermutation, slice_index_or, vec_len};
ghost use Rattle.std.specs.List.{IsDistinct};
ghost use Rattle.std.specs.Vec.{vec_capacity};
ghost use Rattle.mapping_store.specs.Kept.{IsBefore, have_one_id, without};
ghost use Rattle.mapping_store.specs.declared.entry.Entry.{Entry};

use crate::entry::Entry;
use mapping_model::mapping_id::MappingId;

/// The index of the entry with this id.
pub fn index_of(entries: &[Entry], id: MappingId) -> Option<usize>
    ensures { MatchOption result (All (λ e. e.id ≢ id) entries.now)
        (λ at. (at < length entries.now) × ((d : Entry) → (slice_index_or entries.now at d).id ≡ id)) }
{
    for i in 0..entries.len() {
        if entries[i].id.same(id) {
            return Some(i);
        }
    }
    None
}

/// Takes the entry with this id out. The others stay in their order.
pub fn take_out(entries: &mut Vec<Entry>, id: MappingId) -> Option<Entry>
    requires { IsDistinct have_one_id entries.old.items }
    ensures rest { entries.new.items ≡ without id entries.old.items }
    ensures taken { MatchOption result (All (λ e. e.id ≢ id) entries.old.items)
        (λ e. (e.id ≡ id) × IsPermutation entries.old.items (e ∷ entries.new.items)) }
    ensures len { MatchOption result (vec_len entries.new ≡ vec_len entries.old)
        (λ _. vec_len entries.new + 1 ≡ vec_len entries.old) }
    ensures capacity { vec_capacity entries.new ≡ vec_capacity entries.old }
{
    let at = index_of(entries.as_slice(), id)?;
    Some(entries.remove(at))
}

/// Puts the entry where the order has it.
pub fn put_in(entries: &mut Vec<Entry>, entry: Entry)
    requires room { vec_len entries.old < vec_capacity entries.old }
    requires in_order { AllPairs IsBefore entries.old.items }
    ensures put { IsPermutation (entry ∷ entries.old.items) entries.new.items }
    ensures in_order { AllPairs IsBefore entries.new.items }
    ensures len { vec_len entries.new ≡ vec_len entries.old + 1 }
    ensures capacity { vec_capacity entries.old ≤ vec_capacity entries.new }
{
    let at = entries
        .as_slice()
        .partition_point(|other| other.order(&entry).is_lt());
    if let Err(_refused) = entries.insert(at, entry) {
        unreachable!()
    }
}

/// The entry replaces the one with its id, if there is one. It stands where the order has it.
pub fn replace(entries: &mut Vec<Entry>, entry: Entry)
    requires room { vec_len entries.old < vec_capacity entries.old }
    requires ids { IsDistinct have_one_id entries.old.items }
    requires in_order { AllPairs IsBefore entries.old.items }
    ensures put { IsPermutation (entry ∷ without entry.id entries.old.items) entries.new.items }
    ensures in_order { AllPairs IsBefore entries.new.items }
    ensures capacity { vec_capacity entries.old ≤ vec_capacity entries.new }
{
    let _replaced = take_out(entries, entry.id);
    put_in(entries, entry);
}

/// Puts the entry last, in place of the one with its id, if there is one. Where it is new, none is looked for.
pub fn put_last(entries: &mut Vec<Entry>, entry: Entry, is_new: bool)
    requires room { vec_len entries.old < vec_capacity entries.old }
    requires ids { IsDistinct have_one_id entries.old.items }
    requires new { IsTrue is_new → All (λ e. e.id ≢ entry.id) entries.old.items }
    ensures put { IsPermutation (entry ∷ without entry.id entries.old.items) entries.new.items }
    ensures last { IsTrue is_new → entries.new.items ≡ entries.old.items ++ entry ∷ [] }
    ensures len { vec_len entries.new ≤ vec_len entries.old + 1 }
    ensures capacity { vec_capacity entries.old ≤ vec_capacity entries.new }
{
    if !is_new {
        replace_last(entries, entry);
        return;
    }
    if let Err(_refused) = entries.push(entry) {
        unreachable!()
    }
}

/// Puts the entry last, in place of the one with its id, if there is one.
fn replace_last(entries: &mut Vec<Entry>, entry: Entry)
    requires room { vec_len entries.old < vec_capacity entries.old }
    requires ids { IsDistinct have_one_id entries.old.items }
    ensures put { IsPermutation (entry ∷ without entry.id entries.old.items) entries.new.items }
    ensures len { vec_len entries.new ≤ vec_len entries.old + 1 }
    ensures capacity { vec_capacity entries.old ≤ vec_capacity entries.new }
{
    let _replaced = take_out(entries, entry.id);
    if let Err(_refused) = entries.push(entry) {
        unreachable!()
    }
}

/// Brings the entries into their order. Takes no memory.
pub fn sort(entries: &mut Vec<Entry>)
    ensures same { IsPermutation entries.old.items entries.new.items }
    ensures in_order { AllPairs IsBefore entries.new.items }
    ensures len { vec_len entries.new ≡ vec_len entries.old }
    ensures capacity { vec_capacity entries.new ≡ vec_capacity entries.old }
{
    entries
        .as_mut_slice()
        .sort_unstable_by(|one, other| one.order(other));
}
