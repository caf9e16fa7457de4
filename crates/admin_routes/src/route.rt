// Admin calls by their method and their path.
use crate::segment::Segment;

/// An admin call by its method and its path, before its body is read.
#[derive(Drop)]
pub enum Route<'p> {
    ListMappings,
    AddMapping,
    DeleteMappings,
    ReadMapping(Segment<'p>),
    EditMapping(Segment<'p>),
    DeleteMapping(Segment<'p>),
    ResetMappings,
    ResetAll,
    ListRequests,
    ClearRequests,
    ListUnmatched,
    FindRequests,
    CountRequests,
    ListScenarios,
    ResetScenarios,
    SetScenario(Segment<'p>),
    StartRecording,
    StopRecording,
    ReadRecordingStatus,
    ReadRecordingHar,
}
