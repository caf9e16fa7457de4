// A live mapping as it is kept.
ghost use Rattle.std.specs.Prelude.{◌≡◌, ◌<◌, List, length, slice_index_or};
ghost use Rattle.request_journal.specs.declared.mapping.Mapping.{Mapping};
ghost use Rattle.mapping_store.specs.Kept.{choice_order, hash_in, key_order, kind_of, order, placed_of, Fits};

use crate::book_mapping::BookMapping;
use mapping_model::mapping_id::MappingId;
use mapping_model::mapping_spec::MappingSpec;
use request_match::url_key::UrlKey;
use std::cmp::Ordering;
use std::snapshot::Snapshot;

/// Where the matcher of a live mapping is.
#[derive(Drop)]
pub enum Source {
    Own(BookMapping),
    /// That of the default with this index, so that a reset builds none again.
    Default(usize),
}

/// A live mapping: its place, and what the order of choice is made of.
pub struct Entry {
    /// The number of the event that added it.
    pub event: u64,
    /// Its index among the mappings of that event.
    pub index: u64,
    pub id: MappingId,
    pub priority: i32,
    /// What the literal URL of the mapping is known by: a request is compared with those alone that are known by its
    /// own, and with those that ask for none.
    pub key: UrlKey,
    pub source: Source,
    /// For contracts alone.
    pub seen: Snapshot<MappingSpec>,
}

// Written out, so that a caller's proof sees one call and not the drop of each part.
impl Drop for Entry {
    fn drop(self) {
        let Entry {
            event: _event,
            index: _index,
            id: _id,
            priority: _priority,
            key: _key,
            source: _source,
            seen: _seen,
        } = self;
    }
}

impl Entry {
    pub fn own(event: u64, index: u64, mapping: BookMapping) -> Entry
        ensures placed { placed_of result
            ≡ record { place = record { event = event; index = index }; mapping = mapping } }
        ensures fits { (defaults : List Mapping) → Fits defaults result }
    {
        let spec = mapping.shared().spec();
        Entry {
            event,
            index,
            id: mapping.id(),
            priority: spec.priority_number(),
            key: mapping.key(),
            seen: Snapshot::of(spec),
            source: Source::Own(mapping),
        }
    }

    /// The entry of the default with this index.
    pub fn of_default(event: u64, at: usize, defaults: &[BookMapping]) -> Entry
        requires { at < length defaults.now }
        ensures placed { (d : Mapping) → placed_of result
            ≡ record { place = record { event = event; index = at }; mapping = slice_index_or defaults.now at d } }
        ensures fits { Fits defaults.now result }
    {
        let default = &defaults[at];
        let spec = default.shared().spec();
        Entry {
            event,
            index: at as u64,
            id: default.id(),
            priority: spec.priority_number(),
            key: default.key(),
            seen: Snapshot::of(spec),
            source: Source::Default(at),
        }
    }

    /// By the keys, and those of one key by choice.
    pub fn order(&self, other: &Entry) -> Ordering
        ensures { result ≡ order self.now other.now }
    {
        key_order(self.key, other.key).then(self.choice_order(other))
    }

    /// `Less` where it wins over the other.
    pub fn choice_order(&self, other: &Entry) -> Ordering
        ensures { result ≡ choice_order self.now other.now }
    {
        self.priority
            .cmp(&other.priority)
            .then(other.event.cmp(&self.event))
            .then(other.index.cmp(&self.index))
    }
}

/// Keys by their kind, and those of a kind by their hash.
pub fn key_order(one: UrlKey, other: UrlKey) -> Ordering
    ensures { result ≡ key_order one other }
{
    kind_of(one)
        .cmp(&kind_of(other))
        .then(hash_in(one).cmp(&hash_in(other)))
}

fn kind_of(key: UrlKey) -> u8
    ensures { result ≡ kind_of key }
{
    match key {
        UrlKey::Any => 0,
        UrlKey::Url(_hash) => 1,
        UrlKey::UrlPath(_hash) => 2,
    }
}

fn hash_in(key: UrlKey) -> u64
    ensures { result ≡ hash_in key }
{
    match key {
        UrlKey::Any => 0,
        UrlKey::Url(hash) => hash,
        UrlKey::UrlPath(hash) => hash,
    }
}
