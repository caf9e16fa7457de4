// The call of a place by its method.
ghost use Rattle.std.specs.Prelude.{◌≡◌};
ghost use Rattle.admin_routes.specs.Inner.Methods.{call_at, when, mappings_at, mapping_at, requests_at};

use crate::place::Place;
use crate::route::Route;
use crate::segment::Segment;

/// The call of the place with this parameter, which most places ignore.
pub(crate) fn call_at<'p>(method: &str, place: Place, parameter: Segment<'p>) -> Option<Route<'p>>
    ensures { result ≡ call_at method.now place parameter.entry }
{
    match place {
        Place::Mappings => mappings_at(method),
        Place::Mapping => mapping_at(method, parameter),
        Place::Reset => when(method, "POST", Route::ResetAll),
        Place::Requests => requests_at(method),
        Place::Unmatched => when(method, "GET", Route::ListUnmatched),
        Place::Find => when(method, "POST", Route::FindRequests),
        Place::Count => when(method, "POST", Route::CountRequests),
        Place::Scenarios => when(method, "GET", Route::ListScenarios),
        Place::ScenariosReset => when(method, "POST", Route::ResetScenarios),
        Place::ScenarioState => when(method, "PUT", Route::SetScenario(parameter)),
        Place::RecordingStart => when(method, "POST", Route::StartRecording),
        Place::RecordingStop => when(method, "POST", Route::StopRecording),
        Place::RecordingStatus => when(method, "GET", Route::ReadRecordingStatus),
        Place::RecordingHar => when(method, "GET", Route::ReadRecordingHar),
    }
}

fn when<'p>(method: &str, wanted: &str, found: Route<'p>) -> Option<Route<'p>>
    ensures { result ≡ when method.now wanted.now found.entry }
{
    if method == wanted { Some(found) } else { None }
}

fn mappings_at<'p>(method: &str) -> Option<Route<'p>>
    ensures { result ≡ mappings_at method.now }
{
    if method == "GET" {
        Some(Route::ListMappings)
    } else if method == "POST" {
        Some(Route::AddMapping)
    } else if method == "DELETE" {
        Some(Route::DeleteMappings)
    } else {
        None
    }
}

fn mapping_at<'p>(method: &str, id: Segment<'p>) -> Option<Route<'p>>
    ensures { result ≡ mapping_at method.now id.entry }
{
    if method == "GET" {
        Some(Route::ReadMapping(id))
    } else if method == "PUT" {
        Some(Route::EditMapping(id))
    } else if method == "DELETE" {
        Some(Route::DeleteMapping(id))
    } else if method == "POST" && id.as_str() == "reset" {
        Some(Route::ResetMappings)
    } else {
        None
    }
}

fn requests_at<'p>(method: &str) -> Option<Route<'p>>
    ensures { result ≡ requests_at method.now }
{
    if method == "GET" {
        Some(Route::ListRequests)
    } else if method == "DELETE" {
        Some(Route::ClearRequests)
    } else {
        None
    }
}
