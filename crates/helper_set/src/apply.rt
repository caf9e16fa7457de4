//! What helpers do.
ghost use Rattle.std.specs.Prelude.{◌≡◌, true, false, [], ◌∷◌, map, Some, IfOk, IsOk, is_some};
ghost use Rattle.std.specs.Cow.{cow_str_bytes};
ghost use Rattle.helper_set.specs.Values.{kind_of, a_datum, a_text, a_truth};
ghost use Rattle.helper_set.specs.Texts.{contains, trimmed, url_encoded};
ghost use Rattle.helper_set.specs.Helpers.{argument_kinds, fit, applied, is_looked_up, takes_memory};
ghost use Rattle.helper_set.specs.Views.{value_view, made_view, found_view};

use crate::count::{characters, count_in_data, number_of};
use crate::helper::Helper;
use crate::value::{MadeValue, Value};
use base64::engine::general_purpose::STANDARD;
use data_tree::data::Data;
use percent_encoding::{AsciiSet, NON_ALPHANUMERIC, ascii_set, utf8_percent_encode};
use std::alloc::{AllocError, Global};
use std::borrow::CowStr;

// The ASCII bytes that `urlEncode` escapes: all but the unreserved ones (RFC 3986, section 2.3).
const RESERVED: AsciiSet = ascii_set!(
    NON_ALPHANUMERIC
        .remove(b'-')
        .remove(b'.')
        .remove(b'_')
        .remove(b'~')
);

/// The result of a helper other than `jsonPath`. The arguments have the kinds of its signature, in the order in
/// which they are written. The only error is a failed allocation.
#[tactic(auto, using(crate::proofs::Results::is_some_applied, crate::proofs::Results::arguments_are_few))]
pub fn apply<'a>(
    alloc: Global,
    helper: Helper,
    arguments: &[Value<'a>],
) -> Result<MadeValue<'a>, AllocError>
    requires not_looked_up { is_looked_up helper ≡ false }
    requires fitting { fit (argument_kinds helper) (map (λ a. kind_of (value_view a)) arguments.now) ≡ true }
    ensures value { IfOk result (λ made. applied helper (map value_view arguments.now) ≡ Some (made_view made)) }
    ensures no_memory { takes_memory helper ≡ false → IsOk result }
{
    match arguments {
        [argument] => of_one(alloc, helper, *argument),
        [first, second] => Ok(of_two(helper, *first, *second)),
        _ => unreachable!(),
    }
}

fn of_one<'a>(
    alloc: Global,
    helper: Helper,
    argument: Value<'a>,
) -> Result<MadeValue<'a>, AllocError>
    requires { is_some (applied helper (value_view argument ∷ [])) ≡ true }
    ensures value { IfOk result
        (λ made. applied helper (value_view argument.entry ∷ []) ≡ Some (made_view made)) }
    ensures no_memory { takes_memory helper ≡ false → IsOk result }
{
    match argument {
        Value::Text(text) => of_text(alloc, helper, text),
        Value::Datum(found) => Ok(of_data(helper, found)),
        Value::Truth(truth) => Ok(of_truth(helper, truth)),
        Value::Number(_) => unreachable!(),
    }
}

fn of_two<'a>(helper: Helper, first: Value<'a>, second: Value<'a>) -> MadeValue<'a>
    requires { is_some (applied helper (value_view first ∷ value_view second ∷ [])) ≡ true }
    ensures { applied helper (value_view first.entry ∷ value_view second.entry ∷ []) ≡ Some (made_view result) }
{
    match first {
        Value::Text(first) => match second {
            Value::Text(second) => of_texts(helper, first, second),
            Value::Datum(_) | Value::Number(_) | Value::Truth(_) => unreachable!(),
        },
        Value::Datum(_) | Value::Number(_) | Value::Truth(_) => unreachable!(),
    }
}

fn of_data<'a>(helper: Helper, found: Option<&Data>) -> MadeValue<'a>
    requires { is_some (applied helper (a_datum (found_view found) ∷ [])) ≡ true }
    ensures { applied helper (a_datum (found_view found.entry) ∷ []) ≡ Some (made_view result) }
{
    match helper {
        Helper::Size => MadeValue::Number(number_of(count_in_data(found))),
        _ => unreachable!(),
    }
}

fn of_truth<'a>(helper: Helper, truth: bool) -> MadeValue<'a>
    requires { is_some (applied helper (a_truth truth ∷ [])) ≡ true }
    ensures { applied helper (a_truth truth ∷ []) ≡ Some (made_view result) }
{
    match helper {
        Helper::Not => MadeValue::Truth(!truth),
        _ => unreachable!(),
    }
}

fn of_text<'a>(alloc: Global, helper: Helper, text: &'a str) -> Result<MadeValue<'a>, AllocError>
    requires { is_some (applied helper (a_text text.now ∷ [])) ≡ true }
    ensures value { IfOk result (λ made. applied helper (a_text text.now ∷ []) ≡ Some (made_view made)) }
    ensures no_memory { takes_memory helper ≡ false → IsOk result }
{
    match helper {
        Helper::Trim => Ok(MadeValue::Text(CowStr::Borrowed(trim(text)))),
        Helper::Size => Ok(MadeValue::Number(number_of(characters(text)))),
        _ => Ok(MadeValue::Text(changed(alloc, helper, text)?)),
    }
}

// The helpers that give a new text.
fn changed<'a>(
    alloc: Global,
    helper: Helper,
    text: &'a str,
) -> Result<CowStr<'a, Global>, AllocError>
    requires { takes_memory helper ≡ true }
    ensures { IfOk result (λ made. applied helper (a_text text.now ∷ []) ≡ Some (a_text (cow_str_bytes made))) }
{
    match helper {
        Helper::Upper => Ok(CowStr::Owned(text.to_ascii_uppercase(alloc)?)),
        Helper::Lower => Ok(CowStr::Owned(text.to_ascii_lowercase(alloc)?)),
        Helper::Base64 => Ok(CowStr::Owned(STANDARD.encode(alloc, text.as_bytes())?)),
        Helper::UrlEncode => url_encode(alloc, text),
        _ => unreachable!(),
    }
}

fn url_encode(alloc: Global, text: &str) -> Result<CowStr<'_, Global>, AllocError>
    ensures { IfOk result (λ made. cow_str_bytes made ≡ url_encoded text.now) }
{
    utf8_percent_encode(text, RESERVED).into_cow(alloc)
}

fn trim(text: &str) -> &str
    ensures { result.now ≡ trimmed text.now }
{
    text.trim_ascii()
}

fn of_texts<'a>(helper: Helper, first: &'a str, second: &'a str) -> MadeValue<'a>
    requires { is_some (applied helper (a_text first.now ∷ a_text second.now ∷ [])) ≡ true }
    ensures { applied helper (a_text first.now ∷ a_text second.now ∷ []) ≡ Some (made_view result) }
{
    match helper {
        Helper::Eq => MadeValue::Truth(first == second),
        Helper::Neq => MadeValue::Truth(first != second),
        Helper::Contains => MadeValue::Truth(has_part(first, second)),
        Helper::DefaultIfEmpty if first.is_empty() => MadeValue::Text(CowStr::Borrowed(second)),
        Helper::DefaultIfEmpty => MadeValue::Text(CowStr::Borrowed(first)),
        _ => unreachable!(),
    }
}

fn has_part(text: &str, part: &str) -> bool
    ensures { result ≡ contains text.now part.now }
{
    text.contains(part)
}
