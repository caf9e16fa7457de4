// The request that is forwarded, what is to be sent for it, and the replies that a peer gives.
use http_header::{HeaderName, HeaderValue};
use mock_request::snapshot::Snapshot;
use recorder::target::Target;
use std::alloc::{AllocError, Global};

/// What is to be sent.
pub const SENT: &str =
    "POST /api/things?x=1&y HTTP/1.1\r\nhost: 127.0.0.1:9000\r\nx-mock-forwarded: 1\r\nx-b: 2\r\n\
    accept: text/plain\r\nx-a: 1\r\ncontent-length: 15\r\n\r\nhello, upstream";

/// A reply whose length is said.
pub const REPLY: &str =
    "HTTP/1.1 200 OK\r\nDate: Thu, 26 Nov 2026 18:00:00 GMT\r\nX-B: 2\r\nConnection: close, x-hop\r\n\
    X-Hop: 1\r\nContent-Type: text/plain\r\nSet-Cookie: b=1\r\nX-A: 1\r\nSet-Cookie: a=2\r\nContent-Length: 12\r\n\r\n\
    hello, there";

/// The same in chunks.
pub const CHUNKS: &str =
    "HTTP/1.1 200 OK\r\nX-B: 2\r\nTransfer-Encoding: chunked\r\nContent-Type: text/plain\r\n\
    Set-Cookie: b=1\r\nX-A: 1\r\nSet-Cookie: a=2\r\n\r\n5\r\nhello\r\n1;x=y\r\n,\r\n6\r\n there\r\n0\r\n\
    X-T: 1\r\n\r\n";

/// What both are: the lines of the headers, then the content.
pub const RELAYED: &str =
    "content-type: text/plain\nset-cookie: b=1\nset-cookie: a=2\nx-a: 1\nx-b: 2\nhello, there";

pub fn target(alloc: Global) -> Result<Target, AllocError> {
    match Target::parse(alloc, "http://127.0.0.1:9000/api/") {
        Ok(target) => Ok(target),
        Err(_error) => Err(AllocError),
    }
}

pub fn request(alloc: Global) -> Result<Snapshot, AllocError> {
    let mut headers = Vec::new(alloc);
    for (name, value) in [
        ("Host", "mock.test"),
        ("X-B", "2"),
        ("Connection", "keep-alive, X-Hop"),
        ("X-Hop", "1"),
        ("Accept", "text/plain"),
        ("Accept-Encoding", "gzip"),
        ("Content-Length", "15"),
        ("X-A", "1"),
    ]
    .as_slice()
    {
        push(alloc, &mut headers, name, value)?;
    }
    let target = "/things?x=1&y";
    match Snapshot::new(
        alloc,
        "POST",
        target,
        headers.as_slice(),
        b"hello, upstream",
    ) {
        Ok(request) => Ok(request),
        Err(_error) => Err(AllocError),
    }
}

fn push(
    alloc: Global,
    headers: &mut Vec<(HeaderName, HeaderValue)>,
    name: &str,
    value: &str,
) -> Result<(), AllocError> {
    let Ok(name) = HeaderName::from_bytes(alloc, name.as_bytes()) else {
        return Err(AllocError);
    };
    let Ok(value) = HeaderValue::from_bytes(alloc, value.as_bytes()) else {
        return Err(AllocError);
    };
    Ok(headers.push((name, value))?)
}
