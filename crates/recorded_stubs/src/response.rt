// The response that a reply becomes: its texts as they are, never templates.
ghost use Rattle.std.specs.Prelude.{◌≡◌, ◌≤◌, true, length, map, IfOk};
ghost use Rattle.std.specs.List.{list_all};
ghost use Rattle.std.specs.Str.{is_utf8};
ghost use Rattle.mapping_model.specs.declared.header_lines.TheConstants.{HEADER_LIMIT};
ghost use Rattle.recorder.specs.Stubs.{can_be_response, header_line, reply_body, response_of};

use crate::utf8::{octets_of, text_of, utf8, utf8_text};
use mapping_model::header_lines::{HeaderLine, HeaderLines};
use mapping_model::reply::{Reply, ReplyHeader};
use mapping_model::response_spec::{Body, Content, ResponseSpec};
use mapping_model::status::Status;
use plain_text::text::Text;
use std::alloc::{AllocError, Global};

pub(crate) fn response_of(alloc: Global, reply: &Reply) -> Result<ResponseSpec, AllocError>
    requires { can_be_response reply.now ≡ true }
    ensures { IfOk result (λ response. response ≡ response_of reply.now) }
{
    let Some(status) = Status::new(reply.status) else {
        unreachable!();
    };
    let headers = header_lines(alloc, reply.headers.as_slice())?;
    let body = reply_body(alloc, reply.body.as_slice())?;
    Ok(ResponseSpec {
        status,
        content: Content::Plain { headers, body },
    })
}

fn header_lines(alloc: Global, lines: &[ReplyHeader]) -> Result<HeaderLines<Text>, AllocError>
    requires texts { list_all (λ line. is_utf8 line.value) lines.now ≡ true }
    requires within { length lines.now ≤ HEADER_LIMIT }
    ensures { IfOk result (λ kept. kept ≡ map header_line lines.now) }
{
    let mut kept = Vec::with_capacity(alloc, lines.len())?;
    for line in lines {
        kept.push(HeaderLine {
            name: line.name.clone()?,
            value: utf8_text(alloc, line.value.as_slice())?,
        })?;
    }
    let Some(kept) = HeaderLines::new(kept) else {
        unreachable!();
    };
    Ok(kept)
}

fn reply_body(alloc: Global, bytes: &[u8]) -> Result<Body<Text>, AllocError>
    ensures { IfOk result (λ body. body ≡ reply_body bytes.now) }
{
    match utf8(bytes) {
        Some(text) => Ok(Body::of_text(text_of(alloc, text)?)),
        None => Ok(Body::Base64(octets_of(alloc, bytes)?)),
    }
}
