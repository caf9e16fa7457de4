// Which admin call a request is (WireMock's documentation, "Admin API"): what its method, its path and its body ask
// for. Paths are found by `matchit`, in a router that is made once. Contracts cite `specs/Places.antt` (the paths),
// `specs/Routes.antt` (the calls with their methods and paths), `specs/Calls.antt` (what each call takes of its path and
// its body, and why one is refused), `specs/Segment.antt` (what is in the place of a name) and `specs/Errors.antt` (the
// code of each error).
#![tactic(auto)]

pub mod admin;
pub mod call;
pub mod error;
mod methods;
mod place;
pub mod route;
pub mod router;
pub mod segment;
mod table;
pub mod url;
