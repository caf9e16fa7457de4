// Admin calls found by their method and their path.
ghost use Rattle.std.specs.Prelude.{◌≡◌, IfSome, IsNone, ℕ, List};
ghost use Rattle.matchit.specs.Params.{walk};
ghost use Rattle.mock_request.specs.Url.{path_of};
ghost use Rattle.admin_routes.specs.Inner.Table.{ShowsFirst};
ghost use Rattle.admin_routes.specs.Places.{IsPath};
ghost use Rattle.admin_routes.specs.Routes.{Names};
ghost use Rattle.admin_routes.specs.declared.place.Place.{Place};

use crate::methods::call_at;
use crate::place::Place;
use crate::route::Route;
use crate::segment::Segment;
use crate::table::router;
use crate::url::path_of;
use matchit::{Params, Router};
use std::alloc::{AllocError, Global};
use std::marker::Model;

/// Finds admin calls. It is made once, at the start, and then takes no memory.
pub struct AdminRoutes {
    router: Router<Place>,
}

impl Drop for AdminRoutes {
    fn drop(self) {
        let AdminRoutes { router: _router } = self;
    }
}

impl Model for AdminRoutes {
    ghost use Rattle.std.specs.Prelude.{◌≡◌};
    ghost use Rattle.admin_routes.specs.Inner.Table.{rows};

    ghost Value = { Unit {0} };

    ghost view = { λ a. tt };

    ghost invariant = { λ a. a.router ≡ rows };
}

impl AdminRoutes {
    pub fn new(alloc: Global) -> Result<AdminRoutes, AllocError> {
        let router = router(alloc)?;
        Ok(AdminRoutes { router })
    }

    /// The call that the method and the path of the URL name; its query is ignored.
    pub fn route_of<'p>(&self, method: &str, url: &'p str) -> Option<Route<'p>>
        ensures found { IfSome result (Names method.now url.now) }
        ensures unknown { IsNone result → (route : Route) → ¬ (Names method.now url.now route) }
    {
        match self.find(path_of(url)) {
            Some((place, parameter)) => call_at(method, place, Segment::new(parameter)),
            None => None,
        }
    }

    /// The place of the path and its parameter. The parameter has no meaning where the place takes none.
    pub(crate) fn find<'p>(&self, path: &'p str) -> Option<(Place, &'p str)>
        ensures found { IfSome result (λ found. IsPath found.0 found.1.now path.now) }
        ensures unknown { IsNone result → (place : Place) (parameter : List ℕ) → ¬ (IsPath place parameter path.now) }
    {
        match self.router.at(path) {
            Ok(found) => Some((*found.value, first_parameter(&found.params))),
            Err(_) => None,
        }
    }
}

// What the first parameter took of the path: nothing, if there is none.
fn first_parameter<'p>(params: &Params<'_, 'p>) -> &'p str
    ensures { ShowsFirst (walk params.now.pattern.now params.now.text.now params.now.path.now params.now.names.now 0 0)
        result.now }
{
    match params.iter().next() {
        Some((_name, value)) => value,
        None => "",
    }
}
