// The live mappings, the newest first.
ghost use Rattle.std.specs.Prelude.{◌≡◌, All, AllPairs, IfOk, IsPermutation, map};
ghost use Rattle.request_journal.specs.Choice.{IsNewer};
ghost use Rattle.mapping_store.specs.Kept.{Fits, placed_of};
ghost use Rattle.mapping_store.specs.Inner.Entries.{by_age};
ghost use Rattle.mapping_store.specs.Stored.{IsNewestFirst};

use crate::book_mapping::BookMapping;
use crate::eligible::spec_of;
use crate::entry::Entry;
use request_journal::mapping::Mapping;
use std::alloc::{AllocError, Global};
use std::cmp::Ordering;
use std::marker::Model;

/// A live mapping, which contracts see with its place.
#[derive(Drop)]
struct Listed {
    event: u64,
    index: u64,
    mapping: Mapping,
}

impl Model for Listed {
    ghost use Rattle.request_journal.specs.Past.{Placed};

    ghost Value = { Placed };

    ghost view = { λ l. record {
      place = record { event = l.event; index = l.index };
      mapping = l.mapping;
    } };
}

impl Listed {
    /// `Less` where it is newer than the other.
    fn by_age(&self, other: &Listed) -> Ordering
        ensures { result ≡ by_age self.now other.now }
    {
        other
            .event
            .cmp(&self.event)
            .then(other.index.cmp(&self.index))
    }
}

/// The mappings of the entries, the newest first.
pub(crate) fn newest_first(
    alloc: Global,
    entries: &[Entry],
    defaults: &[BookMapping],
) -> Result<Vec<Mapping>, AllocError>
    requires { All (Fits defaults.now) entries.now }
    ensures { IfOk result (λ listed. IsNewestFirst (map placed_of entries.now) listed.items) }
{
    let mut listed = list_all(alloc, entries, defaults)?;
    sort(&mut listed);
    mappings_of(alloc, listed)
}

fn list_all(
    alloc: Global,
    entries: &[Entry],
    defaults: &[BookMapping],
) -> Result<Vec<Listed>, AllocError>
    requires { All (Fits defaults.now) entries.now }
    ensures { IfOk result (λ listed. listed.items ≡ map placed_of entries.now) }
{
    let mut listed = Vec::with_capacity(alloc, entries.len())?;
    for i in 0..entries.len() {
        listed.push(list_one(&entries[i], defaults)?)?;
    }
    Ok(listed)
}

fn list_one(entry: &Entry, defaults: &[BookMapping]) -> Result<Listed, AllocError>
    requires { Fits defaults.now entry.now }
    ensures { IfOk result (λ listed. listed ≡ placed_of entry.now) }
{
    Ok(Listed {
        event: entry.event,
        index: entry.index,
        mapping: Mapping {
            id: entry.id,
            spec: spec_of(entry, defaults).clone()?,
        },
    })
}

fn sort(listed: &mut Vec<Listed>)
    ensures same { IsPermutation listed.old.items listed.new.items }
    ensures newest_first { AllPairs (λ a b. ¬ (IsNewer b.place a.place)) listed.new.items }
{
    listed
        .as_mut_slice()
        .sort_unstable_by(|one, other| one.by_age(other));
}

fn mappings_of(alloc: Global, listed: Vec<Listed>) -> Result<Vec<Mapping>, AllocError>
    ensures { IfOk result (λ mappings. mappings.items ≡ map (λ p. p.mapping) listed.items) }
{
    let mut mappings = Vec::with_capacity(alloc, listed.len())?;
    for one in listed {
        mappings.push(one.mapping)?;
    }
    Ok(mappings)
}
