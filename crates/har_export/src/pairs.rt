// Names with values.
ghost use Rattle.std.specs.Prelude.{◌≡◌, ◌∷◌, [], ◌++◌, option_map, IfOk, OnOk};
ghost use Rattle.har_export.specs.Pairs.{json_of_pair, json_of_pairs, first_named, reply_pairs, cookie_set};
ghost use Rattle.har_export.specs.Pairs.{cookies_set};
ghost use Rattle.mock_request.specs.Cookies.{is_semicolon};
ghost use Rattle.std.specs.List.{before_first};
ghost use Rattle.mock_request.specs.Values.{pair_of, pairs_of};
ghost use Rattle.serde_json.specs.View.{view};

use mapping_model::reply::ReplyHeader;
use mock_request::cookies::{cookie_in, without_spaces_around};
use recorder::key::is_named;
use serde_json::{Map, Value};
use std::alloc::{AllocError, Global};

/// A list of the pairs, in their order.
pub(crate) fn pairs_value(alloc: Global, pairs: &[(String, String)]) -> Result<Value, AllocError>
    ensures { IfOk result (λ value. view value ≡ json_of_pairs (pairs_of pairs.now)) }
{
    let mut values = Vec::with_capacity(alloc, pairs.len())?;
    for pair in pairs {
        values.push(pair_value(alloc, pair)?)?;
    }
    Ok(Value::Array(values))
}

fn pair_value(alloc: Global, pair: &(String, String)) -> Result<Value, AllocError>
    ensures { IfOk result (λ value. view value ≡ json_of_pair (pair_of pair.now)) }
{
    let mut members = Map::new(alloc);
    let name = Value::try_from_str(alloc, pair.0.as_str())?;
    serde_json::put(&mut members, alloc, "name", name)?;
    let value = Value::try_from_str(alloc, pair.1.as_str())?;
    serde_json::put(&mut members, alloc, "value", value)?;
    Ok(Value::Object(members))
}

/// The value of the first pair of that name, which has no case; without one, the default.
pub(crate) fn first_named<'a>(
    name: &str,
    default: &'a str,
    pairs: &'a [(String, String)],
) -> &'a str
    ensures { result.now ≡ first_named name.now default.now (pairs_of pairs.now) }
{
    for (other, value) in pairs {
        if is_named(other.as_str(), name) {
            return value.as_str();
        }
    }
    default
}

/// The headers of a reply as names and texts.
pub(crate) fn reply_pairs(
    alloc: Global,
    headers: &[ReplyHeader],
) -> Result<Vec<(String, String)>, AllocError>
    ensures { IfOk result (λ pairs. pairs_of pairs.items ≡ reply_pairs headers.now) }
{
    let mut pairs = Vec::with_capacity(alloc, headers.len())?;
    for header in headers {
        pairs.push((
            String::from_str(alloc, header.name.as_str())?,
            String::from_utf8_lossy(alloc, header.value.as_slice())?,
        ))?;
    }
    Ok(pairs)
}

/// The cookies that the `set-cookie` headers among the pairs set.
pub(crate) fn cookies_set(
    alloc: Global,
    pairs: &[(String, String)],
) -> Result<Vec<(String, String)>, AllocError>
    ensures { IfOk result (λ cookies. pairs_of cookies.items ≡ cookies_set (pairs_of pairs.now)) }
{
    let mut cookies = Vec::new(alloc);
    for pair in pairs {
        push_cookie(alloc, &mut cookies, pair)?;
    }
    Ok(cookies)
}

fn push_cookie(
    alloc: Global,
    cookies: &mut Vec<(String, String)>,
    pair: &(String, String),
) -> Result<(), AllocError>
    ensures { OnOk result (pairs_of cookies.new.items
        ≡ pairs_of cookies.old.items ++ cookies_set (pair_of pair.now ∷ [])) }
{
    if let Some((name, value)) = cookie_set(pair) {
        cookies.push((
            String::from_str(alloc, name)?,
            String::from_str(alloc, value)?,
        ))?;
    }
    Ok(())
}

fn cookie_set(pair: &(String, String)) -> Option<(&str, &str)>
    ensures { option_map (λ cookie. (cookie.0.now, cookie.1.now)) result ≡ cookie_set (pair_of pair.now) }
{
    if !is_named(pair.0.as_str(), "set-cookie") {
        return None;
    }
    cookie_in(without_spaces_around(before_semicolon(pair.1.as_str())))
}

fn before_semicolon(text: &str) -> &str
    ensures { result.now ≡ before_first is_semicolon text.now }
{
    match text.split_once(';') {
        Some((before, _attributes)) => before,
        None => text,
    }
}
