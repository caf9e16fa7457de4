// The cookies of a request.
ghost use Rattle.std.specs.Prelude.{◌≡◌, ◌++◌, option_map, IfOk, OnOk};
ghost use Rattle.mock_request.specs.Cookies.{without_spaces_around, cookie_in, cookies_in, cookie_pairs};
ghost use Rattle.mock_request.specs.Values.{pairs_of};

use crate::snapshot::Snapshot;
use std::alloc::{AllocError, Global};

/// The names and values of the cookies in all `cookie` headers, in their order.
pub fn cookie_pairs(alloc: Global, snapshot: &Snapshot) -> Result<Vec<(String, String)>, AllocError>
    ensures { IfOk result (λ pairs. pairs_of pairs.items ≡ cookie_pairs snapshot.now.headers) }
{
    let mut pairs = Vec::new(alloc);
    for index in 0..snapshot.header_count() {
        if let Some((name, value)) = snapshot.header(index) {
            if name == "cookie" {
                let text = String::from_utf8_lossy(alloc, value)?;
                push_cookies(alloc, text.as_str(), &mut pairs)?;
            }
        }
    }
    Ok(pairs)
}

// Appends the cookies of one header's text.
fn push_cookies(
    alloc: Global,
    text: &str,
    pairs: &mut Vec<(String, String)>,
) -> Result<(), AllocError>
    ensures { OnOk result (pairs_of pairs.new.items ≡ pairs_of pairs.old.items ++ cookies_in text.now) }
{
    for piece in text.split(';') {
        if let Some((name, value)) = cookie_in(without_spaces_around(piece)) {
            pairs.push((
                String::from_str(alloc, name)?,
                String::from_str(alloc, value)?,
            ))?;
        }
    }
    Ok(())
}

/// A name and a value on the two sides of the first `=`, where there is a name.
pub fn cookie_in(piece: &str) -> Option<(&str, &str)>
    ensures { option_map (λ pair. (pair.0.now, pair.1.now)) result ≡ cookie_in piece.now }
{
    let (name, value) = piece.split_once('=')?;
    if name.is_empty() {
        return None;
    }
    Some((name, value))
}

/// Without the spaces at both ends. Spaces alone (U+0020), as cookies have them: a tab stays.
pub fn without_spaces_around(piece: &str) -> &str
    ensures { result.now ≡ without_spaces_around piece.now }
{
    piece.trim_start_matches(' ').trim_end_matches(' ')
}
