// The document.
ghost use Rattle.std.specs.Prelude.{◌≡◌, ◌↔◌, ℕ, List, IfOk, IsErrOf, IsTrue, string_bytes};
ghost use Rattle.har_export.specs.Document.{AreEntries, AreInRange, IsEntry, IsHar, IsHarText, creator, json_of_entry};
ghost use Rattle.har_export.specs.Document.{json_of_har, json_of_log, json_of_timings};
ghost use Rattle.har_export.specs.Moment.{IsInRange};
ghost use Rattle.serde_json.specs.Data.{string};
ghost use Rattle.serde_json.specs.View.{items_view, view};

use crate::error::HarError;
use crate::message::{reply_value, request_value};
use crate::moment::{is_in_range, moment_value};
use recorder::exchange::{Exchange, SharedExchange};
use recorder::target::Target;
use serde_json::{Map, Value};
use std::alloc::{AllocError, Global};

/// The document of exchanges with the target. An exchange that started too late is reported before any memory is taken.
pub fn har_of(
    alloc: Global,
    exchanges: &[SharedExchange],
    target: &Target,
) -> Result<Value, HarError>
    ensures document { IfOk result (λ value. IsHar target.now exchanges.now (view value)) }
    ensures out_of_range { IsErrOf result HarError.MomentOutOfRange ↔ ¬ (AreInRange exchanges.now) }
{
    if !are_in_range(exchanges) {
        return Err(HarError::MomentOutOfRange);
    }
    Ok(har_value(alloc, entries(alloc, exchanges, target)?)?)
}

/// The compact text of that document.
pub fn har_text(
    alloc: Global,
    exchanges: &[SharedExchange],
    target: &Target,
) -> Result<String, HarError>
    ensures text { IfOk result (λ text. IsHarText target.now exchanges.now (string_bytes text)) }
    ensures out_of_range { IsErrOf result HarError.MomentOutOfRange ↔ ¬ (AreInRange exchanges.now) }
{
    let document = har_of(alloc, exchanges, target)?;
    Ok(document.to_string(alloc)?)
}

pub(crate) fn are_in_range(exchanges: &[SharedExchange]) -> bool
    ensures { IsTrue result ↔ AreInRange exchanges.now }
{
    exchanges
        .iter()
        .all(|shared| is_in_range(shared.exchange().started_ms))
}

fn entries(
    alloc: Global,
    exchanges: &[SharedExchange],
    target: &Target,
) -> Result<Vec<Value>, AllocError>
    requires { AreInRange exchanges.now }
    ensures { IfOk result (λ values. AreEntries target.now exchanges.now (items_view values.items)) }
{
    let mut values = Vec::with_capacity(alloc, exchanges.len())?;
    for shared in exchanges {
        values.push(entry_value(alloc, target, shared.exchange())?)?;
    }
    Ok(values)
}

fn entry_value(alloc: Global, target: &Target, exchange: &Exchange) -> Result<Value, AllocError>
    requires { IsInRange exchange.now.started_ms }
    ensures { IfOk result (λ value. IsEntry target.now exchange.now (view value)) }
{
    let started = moment_value(alloc, exchange.started_ms)?;
    entry_started(alloc, target, exchange, started)
}

#[tactic(auto, unfolding(crate::specs::Document::json_of_entry))]
pub(crate) fn entry_started(
    alloc: Global,
    target: &Target,
    exchange: &Exchange,
    started: Value,
) -> Result<Value, AllocError>
    ensures { IfOk result (λ value. (text : List ℕ) → view started ≡ string text
        → view value ≡ json_of_entry target.now text exchange.now) }
{
    let mut members = Map::new(alloc);
    serde_json::put(&mut members, alloc, "cache", Value::Object(Map::new(alloc)))?;
    let request = request_value(alloc, target, &exchange.request)?;
    serde_json::put(&mut members, alloc, "request", request)?;
    let reply = reply_value(alloc, &exchange.reply)?;
    serde_json::put(&mut members, alloc, "response", reply)?;
    serde_json::put(&mut members, alloc, "startedDateTime", started)?;
    serde_json::put(&mut members, alloc, "time", Value::from(exchange.wait_ms))?;
    let timings = timings_value(alloc, exchange.wait_ms)?;
    serde_json::put(&mut members, alloc, "timings", timings)?;
    Ok(Value::Object(members))
}

fn timings_value(alloc: Global, wait_ms: u64) -> Result<Value, AllocError>
    ensures { IfOk result (λ value. view value ≡ json_of_timings wait_ms) }
{
    let mut members = Map::new(alloc);
    serde_json::put(&mut members, alloc, "receive", Value::from(0_u64))?;
    serde_json::put(&mut members, alloc, "send", Value::from(0_u64))?;
    serde_json::put(&mut members, alloc, "wait", Value::from(wait_ms))?;
    Ok(Value::Object(members))
}

fn har_value(alloc: Global, entries: Vec<Value>) -> Result<Value, AllocError>
    ensures { IfOk result (λ value. view value ≡ json_of_har (items_view entries.items)) }
{
    let mut members = Map::new(alloc);
    let log = log_value(alloc, entries)?;
    serde_json::put(&mut members, alloc, "log", log)?;
    Ok(Value::Object(members))
}

fn log_value(alloc: Global, entries: Vec<Value>) -> Result<Value, AllocError>
    ensures { IfOk result (λ value. view value ≡ json_of_log (items_view entries.items)) }
{
    let mut members = Map::new(alloc);
    let creator = creator_value(alloc)?;
    serde_json::put(&mut members, alloc, "creator", creator)?;
    serde_json::put(&mut members, alloc, "entries", Value::Array(entries))?;
    let version = Value::try_from_str(alloc, "1.2")?;
    serde_json::put(&mut members, alloc, "version", version)?;
    Ok(Value::Object(members))
}

fn creator_value(alloc: Global) -> Result<Value, AllocError>
    ensures { IfOk result (λ value. view value ≡ creator) }
{
    let mut members = Map::new(alloc);
    let name = Value::try_from_str(alloc, "mock")?;
    serde_json::put(&mut members, alloc, "name", name)?;
    let version = Value::try_from_str(alloc, "1")?;
    serde_json::put(&mut members, alloc, "version", version)?;
    Ok(Value::Object(members))
}
