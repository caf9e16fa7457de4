// The URL that a request's target asks for.
ghost use Rattle.std.specs.Prelude.{◌≡◌, ℕ, ◌↔◌, List, ◌++◌, All, IsSome, IfSome, IfOk, string_bytes};
ghost use Rattle.mock_request.specs.Target.{IsTarget, IsRootedForm, HasUrl, IsAuthorityByte, MayFollowAuthority};

use std::alloc::{AllocError, Global};

/// The path and the query as they are in the target: an absolute form may lack the slash.
pub(crate) fn path_and_query(target: &str) -> Option<&str>
    ensures found { IsSome result ↔ HasUrl target.now }
    ensures text { IfSome result (λ text.
        (url : List ℕ) → IsRootedForm text.now url → IsTarget target.now url) }
{
    if target.starts_with('/') {
        return Some(target);
    }
    let (authority, rest) = split_authority(target.strip_prefix("http://")?);
    if authority.is_empty() {
        return None;
    }
    Some(rest)
}

/// A URL of that path and query.
pub(crate) fn rooted(alloc: Global, text: &str) -> Result<String, AllocError>
    ensures { IfOk result (λ url. IsRootedForm text.now (string_bytes url)) }
{
    if text.starts_with('/') {
        return String::from_str(alloc, text);
    }
    let mut url = String::from_str(alloc, "/")?;
    url.push_str(text)?;
    Ok(url)
}

// What is before the first slash or question mark, and the rest.
fn split_authority(text: &str) -> (&str, &str)
    ensures whole { text.now ≡ result.0.now ++ result.1.now }
    ensures authority { All IsAuthorityByte result.0.now }
    ensures rest { MayFollowAuthority result.1.now }
{
    let end = text.find(['/', '?']);
    text.split_at(end.unwrap_or(text.len()))
}
