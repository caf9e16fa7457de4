// Which admin call a request is.
ghost use Rattle.std.specs.Prelude.{◌≡◌, ℕ, List, Some, None, IfOk, IfErr};
ghost use Rattle.admin_routes.specs.Calls.{IsCall, IsCallOf, IsAdminError, IsRefusalOf};
ghost use Rattle.admin_routes.specs.declared.call.AdminCall.TheVariants as call;
ghost use Rattle.admin_routes.specs.declared.error.AdminError.TheVariants.{UnknownMapping};
ghost use Rattle.admin_routes.specs.declared.route.Route.TheVariants as route;
ghost use Rattle.request_journal.specs.declared.input.BookInput.TheVariants as input;
ghost use Rattle.request_journal.specs.declared.read.BookRead.TheVariants as read;
ghost use Rattle.template_tree.specs.declared.escape.Escape.{Escape};
ghost use Rattle.uuid.specs.Text.{parsed};

use crate::call::AdminCall;
use crate::error::AdminError;
use crate::route::Route;
use crate::router::AdminRoutes;
use crate::segment::Segment;
use admin_json::start::start_of;
use admin_json::state::state_of;
use mapping_json::read::read_mapping_with;
use mapping_json::read_request::read_request;
use mapping_model::mapping_id::MappingId;
use request_journal::input::BookInput;
use request_journal::read::BookRead;
use std::alloc::Global;
use template_tree::escape::Escape;

/// The call that a request below `/__admin` is, by its method, its URL and its body, where the prints of the templates of
/// posted mappings are escaped so. A method and a path that the table doesn't have are reported without memory, then an
/// id that is none, then what is wrong with the body.
pub fn admin_with(
    alloc: Global,
    routes: &AdminRoutes,
    method: &str,
    url: &str,
    body: &[u8],
    escape: Escape,
) -> Result<AdminCall, AdminError>
    ensures ok { IfOk result (IsCall escape method.now url.now body.now) }
    ensures error { IfErr result (IsAdminError escape method.now url.now body.now) }
{
    match routes.route_of(method, url) {
        Some(route) => call_of(alloc, &route, body, escape),
        None => Err(AdminError::UnknownCall),
    }
}

fn call_of(
    alloc: Global,
    route: &Route<'_>,
    body: &[u8],
    escape: Escape,
) -> Result<AdminCall, AdminError>
    ensures ok { IfOk result (IsCallOf escape route.now body.now) }
    ensures error { IfErr result (IsRefusalOf escape route.now body.now) }
{
    match route {
        Route::ListMappings => Ok(AdminCall::Read(BookRead::Mappings)),
        Route::AddMapping => add_of(alloc, body, escape),
        Route::DeleteMappings => Ok(AdminCall::Change(BookInput::DeleteAll)),
        Route::ReadMapping(id) => read_of(id),
        Route::EditMapping(id) => edit_of(alloc, id, body, escape),
        Route::DeleteMapping(id) => delete_of(id),
        Route::ResetMappings => Ok(AdminCall::Change(BookInput::ResetMappings)),
        Route::ResetAll => Ok(AdminCall::Change(BookInput::ResetAll)),
        Route::ListRequests => Ok(AdminCall::Read(BookRead::Requests)),
        Route::ClearRequests => Ok(AdminCall::Change(BookInput::ClearJournal)),
        Route::ListUnmatched => Ok(AdminCall::Read(BookRead::Unmatched)),
        Route::FindRequests => find_of(alloc, body),
        Route::CountRequests => count_of(alloc, body),
        Route::ListScenarios => Ok(AdminCall::Read(BookRead::Scenarios)),
        Route::ResetScenarios => Ok(AdminCall::Change(BookInput::ResetScenarios)),
        Route::SetScenario(name) => set_of(alloc, name, body),
        Route::StartRecording => start_recording_of(alloc, body),
        Route::StopRecording => Ok(AdminCall::Change(BookInput::StopRecording)),
        Route::ReadRecordingStatus => Ok(AdminCall::Read(BookRead::RecordingStatus)),
        Route::ReadRecordingHar => Ok(AdminCall::Read(BookRead::Recording)),
    }
}

fn add_of(alloc: Global, body: &[u8], escape: Escape) -> Result<AdminCall, AdminError>
    ensures ok { IfOk result (IsCallOf escape route.AddMapping body.now) }
    ensures error { IfErr result (IsRefusalOf escape route.AddMapping body.now) }
{
    let mapping = read_mapping_with(alloc, body, escape)?;
    Ok(AdminCall::Change(BookInput::Add(mapping)))
}

fn read_of(segment: &Segment<'_>) -> Result<AdminCall, AdminError>
    ensures ok { IfOk result
        (λ found. (id : List ℕ) × (parsed segment.now ≡ Some id) × (found ≡ call.Read (read.Mapping id))) }
    ensures error { IfErr result (λ error. (error ≡ UnknownMapping) × (parsed segment.now ≡ None)) }
{
    let id = id_of(segment)?;
    Ok(AdminCall::Read(BookRead::Mapping(id)))
}

fn edit_of(
    alloc: Global,
    segment: &Segment<'_>,
    body: &[u8],
    escape: Escape,
) -> Result<AdminCall, AdminError>
    ensures ok { IfOk result (IsCallOf escape (route.EditMapping segment.now) body.now) }
    ensures error { IfErr result (IsRefusalOf escape (route.EditMapping segment.now) body.now) }
{
    let id = id_of(segment)?;
    let mapping = read_mapping_with(alloc, body, escape)?;
    Ok(AdminCall::Change(BookInput::Edit { id, mapping }))
}

fn delete_of(segment: &Segment<'_>) -> Result<AdminCall, AdminError>
    ensures ok { IfOk result
        (λ found. (id : List ℕ) × (parsed segment.now ≡ Some id) × (found ≡ call.Change (input.Delete id))) }
    ensures error { IfErr result (λ error. (error ≡ UnknownMapping) × (parsed segment.now ≡ None)) }
{
    let id = id_of(segment)?;
    Ok(AdminCall::Change(BookInput::Delete(id)))
}

fn id_of(segment: &Segment<'_>) -> Result<MappingId, AdminError>
    ensures ok { IfOk result (λ id. parsed segment.now ≡ Some id) }
    ensures error { IfErr result (λ error. (error ≡ UnknownMapping) × (parsed segment.now ≡ None)) }
{
    match MappingId::parse(segment.as_str()) {
        Some(id) => Ok(id),
        None => Err(AdminError::UnknownMapping),
    }
}

fn find_of(alloc: Global, body: &[u8]) -> Result<AdminCall, AdminError>
    ensures ok { (escape : Escape) → IfOk result (IsCallOf escape route.FindRequests body.now) }
    ensures error { (escape : Escape) → IfErr result (IsRefusalOf escape route.FindRequests body.now) }
{
    let matcher = read_request(alloc, body)?;
    Ok(AdminCall::Read(BookRead::Find(matcher)))
}

fn count_of(alloc: Global, body: &[u8]) -> Result<AdminCall, AdminError>
    ensures ok { (escape : Escape) → IfOk result (IsCallOf escape route.CountRequests body.now) }
    ensures error { (escape : Escape) → IfErr result (IsRefusalOf escape route.CountRequests body.now) }
{
    let matcher = read_request(alloc, body)?;
    Ok(AdminCall::Read(BookRead::Count(matcher)))
}

fn set_of(alloc: Global, segment: &Segment<'_>, body: &[u8]) -> Result<AdminCall, AdminError>
    ensures ok { (escape : Escape) → IfOk result (IsCallOf escape (route.SetScenario segment.now) body.now) }
    ensures error { (escape : Escape) → IfErr result (IsRefusalOf escape (route.SetScenario segment.now) body.now) }
{
    let state = state_of(alloc, body)?;
    let name = segment.decoded(alloc)?;
    Ok(AdminCall::Change(BookInput::SetScenario { name, state }))
}

fn start_recording_of(alloc: Global, body: &[u8]) -> Result<AdminCall, AdminError>
    ensures ok { (escape : Escape) → IfOk result (IsCallOf escape route.StartRecording body.now) }
    ensures error { (escape : Escape) → IfErr result (IsRefusalOf escape route.StartRecording body.now) }
{
    match start_of(alloc, body) {
        Ok(start) => Ok(AdminCall::Change(BookInput::StartRecording {
            target: start.target,
            captured: start.captured,
            repeats: start.repeats,
        })),
        Err(error) => Err(AdminError::Start(error)),
    }
}
