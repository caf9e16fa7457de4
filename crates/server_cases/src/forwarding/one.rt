// One request forwarded to the upstream that the arguments name.
use counted_io::counted::TURN_LIMIT;
use http_header::{HeaderName, HeaderValue};
use mapping_model::reply::Reply;
use mock_request::snapshot::Snapshot;
use proxy_client::client::{Client, SILENCE_SECONDS};
use proxy_client::error::ProxyError;
use proxy_client::forward::forward;
use recorder::target::Target;
use std::alloc::{AllocError, AllocGlobal, Global};
use std::io;
use std::net::Net;
use std::random::RandomSource;
use std::sync::Wait;
use std::time::{Clock, Duration};
use tokio::runtime::LocalRuntime;

/// What of a reply is printed: all but its content, of which the length and the sum of its bytes stand for it.
#[derive(Drop)]
pub enum Printed {
    Reply {
        status: u16,
        headers: String,
        length: usize,
        sum: u64,
    },
    Failed {
        code: u16,
        reason: &'static str,
    },
    BadArguments,
}

/// Forwards one request: TARGET METHOD URL LENGTH SILENCE, where its content has that length, and the upstream may be
/// silent for as many milliseconds (0: for the usual time).
pub fn forward_one<R>(rt: &R, arguments: &[String]) -> Result<Printed, AllocError>
where
    R: Wait + Net + Clock + RandomSource + AllocGlobal + Copy + Drop,
{
    let alloc = rt.alloc();
    let [_program, target, method, url, length, silence] = arguments else {
        return Ok(Printed::BadArguments);
    };
    let (Ok(length), Ok(silence)) = (length.parse::<usize>(), silence.parse::<u64>()) else {
        return Ok(Printed::BadArguments);
    };
    let Ok(target) = Target::parse(alloc, target.as_str()) else {
        return Ok(Printed::BadArguments);
    };
    let Some(request) = request(alloc, method.as_str(), url.as_str(), length)? else {
        return Ok(Printed::BadArguments);
    };
    let result = if silence == 0 {
        forward(rt, &target, &request, TURN_LIMIT)
    } else {
        forward_within(rt, &target, &request, Duration::from_millis(silence))
    };
    match result {
        Ok(reply) => shown(alloc, &reply),
        Err(error) => Ok(Printed::Failed {
            code: error.error_code().number(),
            reason: reason_of(error),
        }),
    }
}

fn reason_of(error: ProxyError) -> &'static str {
    match error {
        ProxyError::UpstreamFailed(failure) => failure.reason(),
        ProxyError::OutOfMemory => "out of memory",
    }
}

// The same as `forward`, but for the time that the upstream may be silent.
fn forward_within<R>(
    rt: &R,
    target: &Target,
    request: &Snapshot,
    silence: Duration,
) -> Result<Reply, ProxyError>
where
    R: Wait + Net + Clock + RandomSource + AllocGlobal + Copy + Drop,
{
    let client = Client::new(*rt, TURN_LIMIT, silence)?;
    let mut runtime = LocalRuntime::new(rt)?;
    let exchange = client.connect(runtime.handle(), target, request)?;
    runtime.block_on(rt, exchange)?
}

fn request(
    alloc: Global,
    method: &str,
    url: &str,
    length: usize,
) -> Result<Option<Snapshot>, AllocError> {
    let Ok(name) = HeaderName::from_bytes(alloc, b"accept") else {
        return Ok(None);
    };
    let Ok(value) = HeaderValue::from_bytes(alloc, b"*/*") else {
        return Ok(None);
    };
    let mut headers = Vec::new(alloc);
    headers.push((name, value))?;
    let body = vec![in alloc; b'x'; length]?;
    Ok(Snapshot::new(alloc, method, url, headers.as_slice(), body.as_slice()).ok())
}

fn shown(alloc: Global, reply: &Reply) -> Result<Printed, AllocError> {
    let mut headers = String::new(alloc);
    for header in reply.headers.as_slice() {
        headers.push_str(" [")?;
        headers.push_str(header.name.as_str())?;
        headers.push_str(": ")?;
        headers.push_str(String::from_utf8_lossy(alloc, header.value.as_slice())?.as_str())?;
        headers.push_str("]")?;
    }
    let mut sum = 0u64;
    for byte in reply.body.as_slice() {
        sum = sum.wrapping_add(u64::from(*byte));
    }
    Ok(Printed::Reply {
        status: reply.status,
        headers,
        length: reply.body.len(),
        sum,
    })
}
