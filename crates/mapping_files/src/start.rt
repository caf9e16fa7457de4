//! What a server records from its start on.
use admin_json::error::BodyError;
use admin_json::start::{RecordingStart, start_of};
use request_journal::input::BookInput;
use serde_json::{Map, Value};
use std::alloc::{AllocError, Global};

/// The call that starts a recording of the upstream, as an admin call with these names of headers does; or the error of
/// the admin call. The book judges the upstream.
pub fn recording_start(
    alloc: Global,
    target: &str,
    captured: &[&str],
) -> Result<BookInput, BodyError> {
    let body = start_body(alloc, target, captured)?;
    let RecordingStart {
        target,
        captured,
        repeats,
    } = start_of(alloc, body.as_slice())?;
    Ok(BookInput::StartRecording {
        target,
        captured,
        repeats,
    })
}

fn start_body(alloc: Global, target: &str, captured: &[&str]) -> Result<Vec<u8>, AllocError> {
    let mut names = Map::new(alloc);
    for name in captured {
        serde_json::put(&mut names, alloc, *name, Value::Object(Map::new(alloc)))?;
    }
    let mut body = Map::new(alloc);
    let target = Value::try_from_str(alloc, target)?;
    serde_json::put(&mut body, alloc, "targetBaseUrl", target)?;
    serde_json::put(&mut body, alloc, "captureHeaders", Value::Object(names))?;
    Value::Object(body).to_vec(alloc)
}
