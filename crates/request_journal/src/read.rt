// What may be asked of a book without changing it.
use mapping_model::mapping_id::MappingId;
use request_match::request_matcher::RequestMatcher;

/// What is asked for.
#[derive(Drop)]
pub enum BookRead {
    Mappings,
    /// The live mapping with this id.
    Mapping(MappingId),
    Requests,
    Unmatched,
    /// The requests that meet the matcher.
    Find(RequestMatcher),
    /// How many meet it.
    Count(RequestMatcher),
    Scenarios,
    RecordingStatus,
    Recording,
}
