// The state that a body asks for.
ghost use Rattle.std.specs.Prelude.{◌≡◌, IfOk, IfErr};
ghost use Rattle.admin_json.specs.State.{AsksFor, IsStateError, reading_of_state};
ghost use Rattle.serde_json.specs.View.{view};

use crate::error::BodyError;
use json_reading::document::document_of;
use json_reading::fields::{only, text_field};
use json_reading::kind::Kind;
use json_reading::reading::{Reading, needed};
use plain_text::text::Text;
use scenario_core::scenarios::STARTED;
use serde_json::Value;
use std::alloc::{AllocError, Global};

/// The state that a body asks for: `{"state":"two"}`, or no body, which is `STARTED`.
pub fn state_of(alloc: Global, body: &[u8]) -> Result<Text, BodyError>
    ensures ok { IfOk result (AsksFor body.now) }
    ensures error { IfErr result (IsStateError body.now) }
{
    if body.is_empty() {
        return Ok(Text::from(String::from_str(alloc, STARTED)?));
    }
    let Some(value) = document_of(alloc, body)? else {
        return Err(BodyError::Document(Kind::NotJson));
    };
    match reading_of_state(alloc, &value)? {
        Reading::Read(state) => Ok(state),
        Reading::Wrong(kind) => Err(BodyError::Document(kind)),
    }
}

fn reading_of_state(alloc: Global, value: &Value) -> Result<Reading<Text>, AllocError>
    ensures { IfOk result (λ state. state ≡ reading_of_state (view value.now)) }
{
    let state = needed(text_field(alloc, "state", value)?);
    match only(["state"].as_slice(), value, state) {
        Reading::Read(state) => Ok(Reading::Read(state)),
        Reading::Wrong(_kind) => Ok(Reading::Wrong(Kind::Misshapen)),
    }
}
