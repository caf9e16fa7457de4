//! Messages to answer.

use bytes::Bytes;
use http::{Method, Request, Uri};
use std::alloc::{AllocError, Global};

/// What a message asks for.
#[derive(Clone, Copy)]
pub enum Asked {
    /// `GET /a`.
    Get,
    /// `GET /none`, which no mapping answers.
    Missing,
    /// An admin call that makes the default mapping one of version `version 2`.
    Edit,
}

impl Asked {
    /// The status of its answer.
    pub fn status(self) -> u16 {
        match self {
            Asked::Missing => 404,
            Asked::Get | Asked::Edit => 200,
        }
    }

    // The id is the version 5 UUID, in the namespace of URLs, of `urn:stub:default:0`.
    fn target(self) -> &'static str {
        match self {
            Asked::Get => "/a",
            Asked::Missing => "/none",
            Asked::Edit => "/__admin/mappings/f50b98c2-b941-505f-bc3f-fa455f5bb49b",
        }
    }

    fn body(self) -> &'static [u8] {
        match self {
            Asked::Get | Asked::Missing => b"",
            Asked::Edit => {
                b"{\"request\":{\"method\":\"GET\",\"url\":\"/a\"},\"response\":{\"body\":\"version 2\"}}"
            }
        }
    }

    fn method(self) -> Method {
        match self {
            Asked::Get | Asked::Missing => Method::GET,
            Asked::Edit => Method::PUT,
        }
    }
}

pub fn message(alloc: Global, asked: Asked) -> Result<Request<Bytes>, AllocError> {
    let body = Bytes::from_static(asked.body());
    let mut message = Request::new(alloc, body);
    *message.uri_mut() = uri(asked)?;
    *message.method_mut() = asked.method();
    Ok(message)
}

fn uri(asked: Asked) -> Result<Uri, AllocError> {
    Uri::from_static(asked.target()).ok().ok_or(AllocError)
}
