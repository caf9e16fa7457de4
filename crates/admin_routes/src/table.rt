// The router of the paths of admin calls.
ghost use Rattle.std.specs.Prelude.{◌≡◌, [], IfOk, OnOk, IsTrue};
ghost use Rattle.admin_routes.specs.Inner.Table.{can_insert, is_clean, put, with_route, rows};
ghost use Rattle.matchit.specs.Route.{parse_route};

use crate::place::Place;
use matchit::{InsertError, Router};
use std::alloc::{AllocError, Global};

static TABLE: [(&str, Place); 14] = [
    ("/__admin/mappings", Place::Mappings),
    ("/__admin/mappings/{id}", Place::Mapping),
    ("/__admin/reset", Place::Reset),
    ("/__admin/requests", Place::Requests),
    ("/__admin/requests/unmatched", Place::Unmatched),
    ("/__admin/requests/find", Place::Find),
    ("/__admin/requests/count", Place::Count),
    ("/__admin/scenarios", Place::Scenarios),
    ("/__admin/scenarios/reset", Place::ScenariosReset),
    ("/__admin/scenarios/{name}/state", Place::ScenarioState),
    ("/__admin/recordings/start", Place::RecordingStart),
    ("/__admin/recordings/stop", Place::RecordingStop),
    ("/__admin/recordings/status", Place::RecordingStatus),
    ("/__admin/recordings/har", Place::RecordingHar),
];

/// The router with all paths.
pub(crate) fn router(alloc: Global) -> Result<Router<Place>, AllocError>
    ensures { IfOk result (λ router. router ≡ rows) }
{
    fill(alloc, &TABLE)
}

fn fill(alloc: Global, entries: &[(&str, Place)]) -> Result<Router<Place>, AllocError>
    requires { IsTrue (is_clean entries.now []) }
    ensures { IfOk result (λ router. router ≡ put entries.now []) }
{
    let mut router = Router::new(alloc);
    for (pattern, place) in entries {
        insert(&mut router, pattern, *place)?;
    }
    Ok(router)
}

fn insert(router: &mut Router<Place>, pattern: &str, place: Place) -> Result<(), AllocError>
    requires { IsTrue (can_insert (parse_route pattern.now) router.old) }
    ensures { OnOk result (router.new ≡ with_route (parse_route pattern.now) place router.old) }
{
    match router.insert(pattern, place) {
        Ok(()) => Ok(()),
        Err(InsertError::OutOfMemory) => Err(AllocError),
        Err(_error) => unreachable!(),
    }
}
