// The methods of a path.
use admin_routes::router::AdminRoutes;
use std::alloc::{AllocError, Global};

/// Those that calls have.
const METHODS: [&str; 4] = ["GET", "POST", "PUT", "DELETE"];

/// The methods that the calls with this path have, as `GET, POST, DELETE`.
pub(crate) fn methods_of(
    alloc: Global,
    routes: &AdminRoutes,
    path: &str,
) -> Result<String, AllocError> {
    let mut methods = String::new(alloc);
    for method in METHODS {
        if routes.route_of(method, path).is_some() {
            if !methods.is_empty() {
                methods.push_str(", ")?;
            }
            methods.push_str(method)?;
        }
    }
    Ok(methods)
}
