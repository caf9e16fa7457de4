// Whether a URL is one of admin calls.
ghost use Rattle.std.specs.Prelude.{◌≡◌, ◌↔◌, [], ◌∷◌, MatchOption, IsTrue};
ghost use Rattle.std.specs.List.{slice_split};
ghost use Rattle.admin_routes.specs.Inner.Paths.{is_admin_in};
ghost use Rattle.admin_routes.specs.Routes.{IsAdmin};
ghost use Rattle.mock_request.specs.Url.{is_slash, path_of};

/// Whether the URL is one of admin calls, known or not: its path is `/__admin`, or below it. Takes no memory.
pub fn is_admin(url: &str) -> bool
    ensures { IsTrue result ↔ IsAdmin url.now }
{
    // The first test answers for other URLs, at far less cost than a search for `?` and slashes.
    url.starts_with("/__admin") && is_admin_path(path_of(url))
}

fn is_admin_path(path: &str) -> bool
    ensures { result ≡ is_admin_in (slice_split is_slash path.now) }
{
    let Some((before, rest)) = cut(path) else {
        return false;
    };
    if !before.is_empty() {
        return false;
    }
    match cut(rest) {
        Some((admin, _below)) => admin == "__admin",
        None => rest == "__admin",
    }
}

/// The path of the URL, without its query.
pub fn path_of(url: &str) -> &str
    ensures { result.now ≡ path_of url.now }
{
    match url.split_once('?') {
        Some((path, _query)) => path,
        None => url,
    }
}

// The first segment, and what is after its slash.
fn cut(text: &str) -> Option<(&str, &str)>
    ensures { MatchOption result (slice_split is_slash text.now ≡ text.now ∷ [])
        (λ parts. slice_split is_slash text.now ≡ parts.0.now ∷ slice_split is_slash parts.1.now) }
{
    text.split_once('/')
}
