//! The number of a server's first event, if none is asked for.
use mapping_model::mapping_id::MappingId;
use request_match::ready_mapping::ReadyMapping;
use std::alloc::{AllocError, Global};
use std::collections::HashSet;

/// Of how many events, from the first on, none gives an id of the files.
pub(crate) const FREE_EVENTS: u64 = 10_000;

/// The least number from 1 on from which no event gives a mapping the id of one of these: of the next `FREE_EVENTS` events,
/// neither to a mapping that is posted without an id, nor to the first one of a recording.
pub(crate) fn first_event(alloc: Global, mappings: &[ReadyMapping]) -> Result<u64, AllocError> {
    let mut ids: HashSet<MappingId> = HashSet::new(alloc);
    for mapping in mappings {
        if let Some(id) = mapping.spec().id {
            if is_of_version_5(alloc, id)? {
                ids.insert(id)?;
            }
        }
    }
    let mut first = 1;
    if ids.is_empty() {
        return Ok(first);
    }
    for number in 1..u64::MAX {
        if is_given(alloc, &ids, number)? {
            first = number + 1;
        } else if number.saturating_sub(first) >= FREE_EVENTS - 1 {
            break;
        }
    }
    Ok(first)
}

// Whether a server may have given it.
fn is_of_version_5(alloc: Global, id: MappingId) -> Result<bool, AllocError> {
    let text = id.hyphenated(alloc)?;
    Ok(text.as_bytes().get(14) == Some(&b'5'))
}

// Whether the event with this number gives one of the ids.
fn is_given(alloc: Global, ids: &HashSet<MappingId>, number: u64) -> Result<bool, AllocError> {
    let posted = MappingId::of_event(alloc, number)?;
    let recorded = MappingId::of_recording(alloc, number, 0)?;
    Ok(ids.contains(&posted) || ids.contains(&recorded))
}
