// Requests of the journal, as values.
ghost use Rattle.std.specs.Prelude.{◌≡◌, IfOk, string_bytes};
ghost use Rattle.admin_json.specs.Requests.{json_of_received, json_of_entry};
ghost use Rattle.serde_json.specs.View.{view};
ghost use Rattle.serde_json.specs.Written.{compact_text};

use crate::grouped::pairs_value;
use mock_request::body::body_text;
use mock_request::header_fields::header_pairs;
use mock_request::snapshot::Snapshot;
use request_journal::entry::Entry;
use serde_json::{Map, Value};
use std::alloc::{AllocError, Global};

/// The compact text of a request.
pub fn entry_text(alloc: Global, entry: &Entry) -> Result<String, AllocError>
    ensures { IfOk result (λ text. string_bytes text ≡ compact_text (json_of_entry entry.now)) }
{
    entry_value(alloc, entry)?.to_string(alloc)
}

fn entry_value(alloc: Global, entry: &Entry) -> Result<Value, AllocError>
    ensures { IfOk result (λ value. view value ≡ json_of_entry entry.now) }
{
    let mut members = Map::new(alloc);
    serde_json::put(&mut members, alloc, "event", Value::from(entry.number))?;
    let request = received_value(alloc, entry.request.request())?;
    serde_json::put(&mut members, alloc, "request", request)?;
    Ok(Value::Object(members))
}

#[tactic(auto, unfolding(crate::specs::Requests::json_of_received))]
fn received_value(alloc: Global, request: &Snapshot) -> Result<Value, AllocError>
    ensures { IfOk result (λ value. view value ≡ json_of_received request.now) }
{
    let mut members = Map::new(alloc);
    let body = Value::String(body_text(alloc, request)?);
    serde_json::put(&mut members, alloc, "body", body)?;
    let headers = pairs_value(alloc, header_pairs(alloc, request)?)?;
    serde_json::put(&mut members, alloc, "headers", headers)?;
    let method = Value::try_from_str(alloc, request.method())?;
    serde_json::put(&mut members, alloc, "method", method)?;
    let url = Value::try_from_str(alloc, request.url())?;
    serde_json::put(&mut members, alloc, "url", url)?;
    Ok(Value::Object(members))
}
