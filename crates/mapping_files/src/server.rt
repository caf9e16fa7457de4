// Admin calls to a running server.
use bytes::Bytes;
use counted_io::counted::TURN_LIMIT;
use mapping_model::reply::Reply;
use mock_request::error::SnapshotError;
use mock_request::snapshot::Snapshot;
use proxy_client::error::ProxyError;
use proxy_client::forward::forward;
use recorder::error::RecordingError;
use recorder::target::Target;
use std::alloc::{AllocError, AllocGlobal, Global};
use std::net::Net;
use std::random::RandomSource;
use std::sync::Wait;
use std::time::Clock;

/// Why a call has no answer.
#[derive(Clone, Copy, Debug)]
pub enum CallError {
    /// The address of the server isn't one.
    BadAddress,
    Failed(ProxyError),
    /// The answer has this status, and not 200.
    Status(u16),
    OutOfMemory,
}

impl From<AllocError> for CallError {
    fn from(_error: AllocError) -> CallError {
        CallError::OutOfMemory
    }
}

impl From<ProxyError> for CallError {
    fn from(error: ProxyError) -> CallError {
        match error {
            ProxyError::OutOfMemory => CallError::OutOfMemory,
            error => CallError::Failed(error),
        }
    }
}

impl From<RecordingError> for CallError {
    fn from(error: RecordingError) -> CallError {
        match error {
            RecordingError::OutOfMemory => CallError::OutOfMemory,
            _ => CallError::BadAddress,
        }
    }
}

impl From<SnapshotError> for CallError {
    fn from(error: SnapshotError) -> CallError {
        match error {
            SnapshotError::OutOfMemory => CallError::OutOfMemory,
            _ => CallError::BadAddress,
        }
    }
}

/// The content of what the server at the address, as `127.0.0.1:8080`, answers to a call without a body, if its status
/// is 200.
pub fn call<R>(rt: &R, address: &str, method: &str, path: &str) -> Result<Bytes, CallError>
where
    R: Wait + Net + Clock + RandomSource + AllocGlobal + Copy + Drop,
{
    let alloc = rt.alloc();
    let target = target_of(alloc, address)?;
    let request = Snapshot::new(alloc, method, path, &[], &[])?;
    let Reply {
        status,
        headers: _headers,
        body,
    } = forward(rt, &target, &request, TURN_LIMIT)?;
    if status == 200 {
        Ok(body)
    } else {
        Err(CallError::Status(status))
    }
}

// With or without `http://`.
fn target_of(alloc: Global, address: &str) -> Result<Target, CallError> {
    if address.starts_with("http://") {
        return Ok(Target::parse(alloc, address)?);
    }
    let mut text = String::from_str(alloc, "http://")?;
    text.push_str(address)?;
    Ok(Target::parse(alloc, text.as_str())?)
}

impl CallError {
    /// The reason, in words.
    pub fn reason(self, alloc: Global) -> Result<String, AllocError> {
        match self {
            CallError::BadAddress => String::from_str(alloc, "the address isn't one"),
            CallError::Failed(ProxyError::UpstreamFailed(failure)) => {
                String::from_str(alloc, failure.reason())
            }
            CallError::Status(status) => format!(in alloc; "it answers with the status {status}"),
            _ => String::from_str(alloc, "out of memory"),
        }
    }
}
