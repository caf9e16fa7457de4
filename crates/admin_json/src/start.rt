// What a body asks to record.
ghost use Rattle.std.specs.Prelude.{◌≡◌, IfOk, IfErr};
ghost use Rattle.admin_json.specs.Bodies.{IsReadAs, IsBodyError};
ghost use Rattle.admin_json.specs.Names.{in_order};
ghost use Rattle.admin_json.specs.Start.{reading_of_start, captured_in, captured_of, name_at, repeats_in, start_with};
ghost use Rattle.json_reading.specs.Fields.{members_of};
ghost use Rattle.json_reading.specs.Reading.{read_map};
ghost use Rattle.json_reading.specs.declared.reading.Reading.TheVariants.{Read};
ghost use Rattle.serde_json.specs.View.{view};

use crate::error::BodyError;
use crate::names::in_order;
use json_reading::document::document_of;
use json_reading::fields::{bool_field, only, text_field};
use json_reading::kind::Kind;
use json_reading::reading::{Reading, both, needed, push};
use plain_text::items::Items;
use plain_text::text::Text;
use serde_json::Value;
use std::alloc::{AllocError, Global};

/// What is to be recorded.
#[derive(Drop)]
pub struct RecordingStart {
    /// As it was written: the book judges it.
    pub target: Text,
    /// The names, in lower case and byte order, of the request headers that recorded mappings match.
    pub captured: Items<Text>,
    /// Whether equal requests become a scenario.
    pub repeats: bool,
}

/// What a body asks to record.
pub fn start_of(alloc: Global, body: &[u8]) -> Result<RecordingStart, BodyError>
    ensures ok { IfOk result (λ start. IsReadAs reading_of_start body.now (Read start)) }
    ensures error { IfErr result (IsBodyError reading_of_start body.now) }
{
    let Some(value) = document_of(alloc, body)? else {
        return Err(BodyError::Document(Kind::NotJson));
    };
    match reading_of_start(alloc, &value)? {
        Reading::Read(start) => Ok(start),
        Reading::Wrong(kind) => Err(BodyError::Document(kind)),
    }
}

fn reading_of_start(alloc: Global, value: &Value) -> Result<Reading<RecordingStart>, AllocError>
    ensures { IfOk result (λ start. start ≡ reading_of_start (view value.now)) }
{
    let target = needed(text_field(alloc, "targetBaseUrl", value)?);
    let rest = both(captured_in(alloc, value)?, repeats_in(value));
    let fields = [
        "targetBaseUrl",
        "captureHeaders",
        "repeatsAsScenarios",
        "persist",
    ];
    Ok(only(&fields, value, start_with(both(target, rest))))
}

fn start_with(parts: Reading<(Text, (Items<Text>, bool))>) -> Reading<RecordingStart>
    ensures { result ≡ read_map start_with parts }
{
    match parts {
        Reading::Read((target, (captured, repeats))) => Reading::Read(RecordingStart {
            target,
            captured,
            repeats,
        }),
        Reading::Wrong(kind) => Reading::Wrong(kind),
    }
}

fn repeats_in(value: &Value) -> Reading<bool>
    ensures { result ≡ repeats_in (view value.now) }
{
    match bool_field("repeatsAsScenarios", value) {
        Reading::Read(Some(repeats)) => Reading::Read(repeats),
        Reading::Read(None) => Reading::Read(true),
        Reading::Wrong(kind) => Reading::Wrong(kind),
    }
}

fn captured_in(alloc: Global, value: &Value) -> Result<Reading<Items<Text>>, AllocError>
    ensures { IfOk result (λ names. names ≡ captured_in (view value.now)) }
{
    match value.get("captureHeaders") {
        Some(headers) => captured_of(alloc, headers),
        None => Ok(Reading::Read(Items::from(Vec::new(alloc)))),
    }
}

fn captured_of(alloc: Global, value: &Value) -> Result<Reading<Items<Text>>, AllocError>
    ensures { IfOk result (λ names. names ≡ captured_of (view value.now)) }
{
    match names_of(alloc, value)? {
        Reading::Read(names) => {
            let ordered = in_order(alloc, names.as_slice())?;
            Ok(Reading::Read(Items::from(ordered)))
        }
        Reading::Wrong(kind) => Ok(Reading::Wrong(kind)),
    }
}

fn names_of(alloc: Global, value: &Value) -> Result<Reading<Items<Text>>, AllocError>
    ensures { IfOk result (λ names. names ≡ members_of name_at (view value.now)) }
{
    let Some(members) = value.as_object() else {
        return Ok(Reading::Wrong(Kind::Misshapen));
    };
    let mut names = Reading::Read(Items::from(Vec::new(alloc)));
    for (name, member) in members.iter() {
        names = push(names, name_at(alloc, name.as_str(), member)?)?;
    }
    Ok(names)
}

fn name_at(alloc: Global, name: &str, member: &Value) -> Result<Reading<Text>, AllocError>
    ensures { IfOk result (λ found. found ≡ name_at name.now (view member.now)) }
{
    let lower = Text::from(name.to_ascii_lowercase(alloc)?);
    Ok(only([].as_slice(), member, Reading::Read(lower)))
}
