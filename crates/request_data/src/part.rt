// The part of a request's data that is needed.
ghost use Rattle.std.specs.Prelude.{◌≡◌, ◌≤◌, IfOk, option_copied};
ghost use Rattle.std.specs.Str.Lossy.{utf8_lossy};
ghost use Rattle.data_tree.specs.Tree.{fields, view};
ghost use Rattle.data_tree.specs.Json.{size};
ghost use Rattle.data_tree.specs.RequestData.{root_of};
ghost use Rattle.data_tree.specs.WellFormed.{IsWellFormed};
ghost use Rattle.needed_data.specs.Needed.{AreAlike};
ghost use Rattle.request_data.specs.Part.{is_json_part_needed, json_part, kept, part_tree};
ghost use Rattle.request_data.specs.RequestTree.{request_fields, request_tree};

use crate::object::Object;
use data_tree::data::Data;
use data_tree::request_data::{RequestData, SIZE_LIMIT};
use json_bridge::part::part_of_json;
use json_bridge::read::data_of_json;
use mock_request::body::body_text;
use mock_request::snapshot::Snapshot;
use needed_data::needed::Needed;
use needed_data::request_field::RequestField;
use path_template::path_template::PathTemplate;
use std::alloc::{AllocError, Global};

// Templates seldom look at more fields of a request. Room for more is made as they come.
const USUAL_FIELDS: usize = 4;

/// The part of a request's data that is needed, where the whole is within `RequestData`'s limit. What isn't needed
/// isn't made. A path template that the path matches names segments of it, in the fields of `request.path`.
pub fn part_of_data(
    alloc: Global,
    snapshot: &Snapshot,
    template: Option<&PathTemplate>,
    needed: &Needed<'_>,
) -> Result<RequestData, AllocError>
    requires { size (request_tree snapshot.now (option_copied template)) ≤ SIZE_LIMIT }
    ensures tree { IfOk result (λ made.
        root_of made ≡ part_tree needed.now snapshot.now (option_copied template.entry)) }
    ensures alike { IfOk result (λ made.
        AreAlike needed.now (root_of made) (request_tree snapshot.now (option_copied template.entry))) }
{
    let root = root(alloc, snapshot, template, needed)?;
    Ok(RequestData::within_limit(root))
}

/// The root of that part.
pub(crate) fn root(
    alloc: Global,
    snapshot: &Snapshot,
    template: Option<&PathTemplate>,
    needed: &Needed<'_>,
) -> Result<Data, AllocError>
    ensures tree { IfOk result (λ root.
        view root ≡ part_tree needed.now snapshot.now (option_copied template.entry)) }
    ensures well_formed { IfOk result (λ root. IsWellFormed (view root)) }
{
    if !has_json_part(needed) {
        let mut root = Object::with_room(alloc, 1)?;
        root.push("request", request(alloc, snapshot, template, needed)?)?;
        return Ok(root.into_data());
    }
    let mut root = Object::with_room(alloc, 2)?;
    root.push("json", json_of_body(alloc, snapshot, needed)?)?;
    root.push("request", request(alloc, snapshot, template, needed)?)?;
    Ok(root.into_data())
}

// Whether some of the body's data is needed.
fn has_json_part(needed: &Needed<'_>) -> bool
    ensures { result ≡ is_json_part_needed needed.now }
{
    needed.has_json() || !needed.json_names().is_empty()
}

// What is needed of the data of the body, read as UTF-8, with U+FFFD for what is not. A body that is UTF-8 isn't copied.
fn json_of_body(alloc: Global, snapshot: &Snapshot, needed: &Needed<'_>) -> Result<Data, AllocError>
    ensures tree { IfOk result (λ made.
        view made ≡ json_part needed.now (utf8_lossy snapshot.now.body)) }
    ensures well_formed { IfOk result (λ made. IsWellFormed (view made)) }
{
    if let Ok(text) = str::from_utf8(snapshot.body()) {
        return json(alloc, text, needed);
    }
    json(alloc, body_text(alloc, snapshot)?.as_str(), needed)
}

// What is needed of the data of a JSON text, and `Nothing` of another. Most requests have no body, and a reader of JSON
// begins with much room on the stack.
fn json(alloc: Global, text: &str, needed: &Needed<'_>) -> Result<Data, AllocError>
    ensures tree { IfOk result (λ made. view made ≡ json_part needed.now text.now) }
    ensures well_formed { IfOk result (λ made. IsWellFormed (view made)) }
{
    if text.is_empty() {
        return Ok(Data::Nothing);
    }
    let found = if needed.has_json() {
        data_of_json(alloc, text)?
    } else {
        part_of_json(alloc, text, needed.json_names())?
    };
    Ok(found.unwrap_or(Data::Nothing))
}

// The fields of the request that are needed.
fn request(
    alloc: Global,
    snapshot: &Snapshot,
    template: Option<&PathTemplate>,
    needed: &Needed<'_>,
) -> Result<Data, AllocError>
    ensures { IfOk result (λ made.
        view made ≡ fields (kept needed.now (request_fields snapshot.now (option_copied template.entry)))) }
{
    let mut made = Object::with_room(alloc, USUAL_FIELDS)?;
    made.push_field(needed, RequestField::BaseUrl, snapshot, template)?;
    made.push_field(needed, RequestField::Body, snapshot, template)?;
    made.push_field(needed, RequestField::Cookies, snapshot, template)?;
    made.push_field(needed, RequestField::Headers, snapshot, template)?;
    made.push_field(needed, RequestField::Host, snapshot, template)?;
    made.push_field(needed, RequestField::Method, snapshot, template)?;
    made.push_field(needed, RequestField::Path, snapshot, template)?;
    made.push_field(needed, RequestField::PathSegments, snapshot, template)?;
    made.push_field(needed, RequestField::Port, snapshot, template)?;
    made.push_field(needed, RequestField::Query, snapshot, template)?;
    made.push_field(needed, RequestField::Scheme, snapshot, template)?;
    made.push_field(needed, RequestField::Url, snapshot, template)?;
    Ok(made.into_data())
}
