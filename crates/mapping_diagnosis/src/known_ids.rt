// The ids of the mappings of files: which mapping replaces another, and which would be replaced by a later one.
use itoa::Buffer;
use mapping_model::mapping_id::MappingId;
use serde_json::Value;
use std::alloc::{AllocError, Global};
use std::collections::HashMap;

/// Of how many events, from a server's first on, the ids are looked at that they would give.
const EVENTS: u64 = 10_000;

/// The ids of the mappings that a server would have, with where each stands.
#[derive(Drop)]
pub(crate) struct KnownIds {
    places: HashMap<MappingId, String>,
    /// How many mappings were taken.
    count: u64,
    /// Whether one of them has an id of version 5, as servers give them.
    has_given: bool,
}

impl KnownIds {
    pub(crate) fn new(alloc: Global) -> KnownIds {
        KnownIds {
            places: HashMap::new(alloc),
            count: 0,
            has_given: false,
        }
    }

    /// Takes the next mapping, and gives where the one stands that it replaces, if it does.
    pub(crate) fn take(
        &mut self,
        alloc: Global,
        value: &Value,
        place: String,
    ) -> Result<Option<String>, AllocError> {
        let id = match id_text(value) {
            Some(text) => self.given_id(alloc, text)?,
            None => Some(MappingId::of_default(alloc, self.count)?),
        };
        self.count = self.count.saturating_add(1);
        match id {
            Some(id) => Ok(self.places.insert(id, place)?),
            None => Ok(None),
        }
    }

    /// The id that a mapping was given, in each form of a UUID's text.
    fn given_id(&mut self, alloc: Global, text: &str) -> Result<Option<MappingId>, AllocError> {
        let Some(id) = MappingId::parse(text) else {
            return Ok(None);
        };
        self.has_given |= is_of_version_5(alloc, id)?;
        Ok(Some(id))
    }

    /// A sentence on the first mapping that would be replaced by one that is posted without an id, or recorded, to a
    /// server whose first event has this number.
    pub(crate) fn replaced_later(
        &self,
        alloc: Global,
        first: u64,
    ) -> Result<Option<String>, AllocError> {
        if !self.has_given {
            return Ok(None);
        }
        let mut found = None;
        let mut last = first;
        let end = first.saturating_add(EVENTS);
        for number in first..end {
            if let Some(id) = self.given_at(alloc, number)? {
                last = number;
                if found.is_none() {
                    found = Some((number, id));
                }
            }
        }
        match found {
            Some((number, id)) => Ok(Some(self.said(alloc, number, id, last, end)?)),
            None => Ok(None),
        }
    }

    /// A known id that the event with this number would give to a mapping that is posted, or recorded.
    fn given_at(&self, alloc: Global, number: u64) -> Result<Option<MappingId>, AllocError> {
        let posted = MappingId::of_event(alloc, number)?;
        if self.places.contains_key(&posted) {
            return Ok(Some(posted));
        }
        let recorded = MappingId::of_recording(alloc, number, 0)?;
        if self.places.contains_key(&recorded) {
            return Ok(Some(recorded));
        }
        Ok(None)
    }

    fn said(
        &self,
        alloc: Global,
        number: u64,
        id: MappingId,
        last: u64,
        end: u64,
    ) -> Result<String, AllocError> {
        let mut text = String::new(alloc);
        if let Some(place) = self.places.get(&id) {
            text.push_str(place.as_str())?;
        }
        let mut digits = Buffer::new();
        text.push_str(": event ")?;
        text.push_str(digits.format(number))?;
        text.push_str(
            " would give its id to a mapping that is posted or recorded, which would replace it; with --first-event ",
        )?;
        text.push_str(digits.format(last.saturating_add(1)))?;
        text.push_str(" no event up to ")?;
        text.push_str(digits.format(end.saturating_sub(1)))?;
        text.push_str(" gives an id of these files")?;
        Ok(text)
    }
}

/// The text of the id, as it is read.
fn id_text(value: &Value) -> Option<&str> {
    match value.get("id") {
        Some(id) => id.as_str(),
        None => value.get("uuid")?.as_str(),
    }
}

fn is_of_version_5(alloc: Global, id: MappingId) -> Result<bool, AllocError> {
    let text = id.hyphenated(alloc)?;
    Ok(text.as_bytes().get(14) == Some(&b'5'))
}
