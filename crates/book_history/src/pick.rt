// Which of the requests that a journal shows meet a matcher.
ghost use Rattle.std.specs.Prelude.{◌≡◌, ◌↔◌, IfOk, IsTrue};
ghost use Rattle.request_match.specs.Matching.{MeetsRequest};
ghost use Rattle.request_journal.specs.Journal.{Picks};

use request_journal::entry::Entry;
use request_journal::shared_request::SharedRequest;
use request_match::parsed_request::ParsedRequest;
use request_match::request_matcher::RequestMatcher;
use std::alloc::{AllocError, Global};

/// Those that meet the matcher, in their order. They are shared.
pub fn pick(
    alloc: Global,
    matcher: &mut RequestMatcher,
    entries: &[Entry],
) -> Result<Vec<Entry>, AllocError>
    ensures found { IfOk result (λ found. Picks
        (λ entry. MeetsRequest matcher.old entry.request) entries.now found.items) }
    ensures same { matcher.new ≡ matcher.old }
{
    let mut found = Vec::new(alloc);
    for entry in entries {
        if meets(alloc, matcher, &entry.request)? {
            found.push(entry.try_clone()?)?;
        }
    }
    Ok(found)
}

// Whether the request meets the matcher.
fn meets(
    alloc: Global,
    matcher: &mut RequestMatcher,
    request: &SharedRequest,
) -> Result<bool, AllocError>
    ensures answer { IfOk result (λ yes. IsTrue yes ↔ MeetsRequest matcher.old request.now) }
    ensures same { matcher.new ≡ matcher.old }
{
    let mut parsed = ParsedRequest::new(alloc, request.request());
    matcher.matches(&mut parsed)
}
