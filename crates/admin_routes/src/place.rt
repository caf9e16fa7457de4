// The paths of admin calls.

/// A path of admin calls, whatever the method: `specs/Places.antt` has its text. Some have a parameter, an id or a name.
#[derive(Clone, Copy)]
pub(crate) enum Place {
    Mappings,
    Mapping,
    Reset,
    Requests,
    Unmatched,
    Find,
    Count,
    Scenarios,
    ScenariosReset,
    ScenarioState,
    RecordingStart,
    RecordingStop,
    RecordingStatus,
    RecordingHar,
}
