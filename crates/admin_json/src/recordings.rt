// Recordings, as values.
ghost use Rattle.std.specs.Prelude.{◌≡◌, IfOk};
ghost use Rattle.admin_json.specs.Recordings.{json_of_status, word_of};
ghost use Rattle.serde_json.specs.View.{view};

use crate::written::only_member;
use recorder::recording::RecordingStatus;
use serde_json::Value;
use std::alloc::{AllocError, Global};

/// Whether a recording is on, or there was one.
pub fn status_value(alloc: Global, status: RecordingStatus) -> Result<Value, AllocError>
    ensures { IfOk result (λ value. view value ≡ json_of_status status) }
{
    let word = Value::try_from_str(alloc, word_of(status))?;
    only_member(alloc, "status", word)
}

fn word_of(status: RecordingStatus) -> &'static str
    ensures { result.now ≡ word_of status }
{
    match status {
        RecordingStatus::NeverStarted => "NeverStarted",
        RecordingStatus::Recording => "Recording",
        RecordingStatus::Stopped => "Stopped",
    }
}
