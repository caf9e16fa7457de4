// Requests that a page of another site makes.
ghost use Rattle.std.specs.Prelude.{◌≡◌, ◌↔◌, ◌<◌, ◌++◌, length, IsTrue, MatchOption, slice_get};
ghost use Rattle.answering.specs.Foreign.{HasHost, IsForeign, NamesHost, IsOf, IsOtherOrigin, lower_case};

use mock_request::snapshot::Snapshot;

/// Whether a page of another site makes the request: it has an `origin` header, and no `host` header names that site.
pub(crate) fn is_foreign(request: &Snapshot) -> bool
    ensures { IsTrue result ↔ IsForeign request.now.headers }
{
    for index in 0..request.header_count() {
        if is_other_origin(request, index) {
            return true;
        }
    }
    false
}

fn is_other_origin(request: &Snapshot, index: usize) -> bool
    requires { index < length request.now.headers }
    ensures { MatchOption (slice_get request.now.headers index) ⊥
        (λ header. IsTrue result ↔ IsOtherOrigin request.now.headers header) }
{
    matches!(request.header(index), Some((name, value)) if name == "origin" && !has_host(request, value))
}

// Whether a `host` header names the site of the origin.
fn has_host(request: &Snapshot, origin: &[u8]) -> bool
    ensures { IsTrue result ↔ HasHost request.now.headers origin.now }
{
    for index in 0..request.header_count() {
        if is_host(request, index, origin) {
            return true;
        }
    }
    false
}

fn is_host(request: &Snapshot, index: usize, origin: &[u8]) -> bool
    requires { index < length request.now.headers }
    ensures { MatchOption (slice_get request.now.headers index) ⊥ (λ header. IsTrue result ↔ NamesHost origin.now header) }
{
    matches!(request.header(index), Some((name, value)) if name == "host" && is_of(value, origin))
}

// Whether it is the origin of a site with this authority.
fn is_of(authority: &[u8], origin: &[u8]) -> bool
    ensures { IsTrue result ↔ IsOf authority.now origin.now }
{
    is_with("http://", authority, origin) || is_with("https://", authority, origin)
}

// Whether it is the scheme and the authority, in which case doesn't count.
fn is_with(scheme: &str, authority: &[u8], origin: &[u8]) -> bool
    ensures { IsTrue result ↔ (lower_case origin.now ≡ lower_case scheme.now ++ lower_case authority.now) }
{
    match origin.split_at_checked(scheme.len()) {
        Some((first, rest)) => {
            first.eq_ignore_ascii_case(scheme.as_bytes()) && rest.eq_ignore_ascii_case(authority)
        }
        None => false,
    }
}
