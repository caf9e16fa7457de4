//! A request as it was received (`Snapshot`), and its values by name (`query_pairs`, `header_pairs`, `cookie_pairs`),
//! as templates and matchers see them. It uses `http_header` for names and values of headers, and `form_urlencoded` to
//! read queries. Contracts cite `specs/Target.antt` (which URL a target asks for), `Url` (a URL's parts), `Query`,
//! `HeaderFields` and `Cookies` over `Values` (names with values), `Authority` (a host and its port), and
//! `ConnectionNames` (which headers belong to a connection alone).
#![tactic(auto)]

// The request.
mod bare_request;
mod block;
pub mod error;
mod fields;
pub mod last_headers;
pub mod snapshot;
mod target;

// What it says by name, which names are its connection's, the host in an authority, and the text of its body.
pub mod authority;
pub mod body;
pub mod connection_names;
pub mod cookies;
pub mod header_fields;
pub mod query;
pub mod request_values;

// What holds of all targets and URLs.
pub mod laws;
