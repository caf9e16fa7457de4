// What the responses of a mapping have in common.
ghost use Rattle.std.specs.Prelude.{◌≡◌, IfOk, IfSome};
ghost use Rattle.stub_response.specs.Prepared.{HoldsHeaders, IsPrepared};

use crate::headers::header_map;
use crate::limits::{Limits, keep_to};
use crate::needs::needed_by_headers;
use crate::plain_response::{PlainResponse, made_of};
use crate::rendered::rendered_headers;
use bytes::Bytes;
use data_tree::data::Data;
use data_tree::request_data::RequestData;
use http_header::HeaderMap;
use mapping_model::header_lines::HeaderLine;
use mapping_model::response_spec::{Body, Content, ResponseSpec};
use mapping_model::template_text::TemplateText;
use std::alloc::{AllocError, Global};

// The steps and the bytes that headers may take together to be made once. A mapping keeps no longer ones: they are made
// for each response.
const KEPT_STEPS: u64 = 65_536;

const KEPT_BYTES: u64 = 65_536;

/// What the responses of a mapping have in common. It is made once: each response shares its bytes.
#[derive(Drop)]
pub enum Prepared {
    /// All of it: the mapping has no templates.
    Response(PlainResponse),
    /// The headers: none of their templates looks at a request, nor takes much.
    Headers(HeaderMap),
    /// Each response is made for its request.
    Nothing,
}

impl Prepared {
    /// What the responses of this specification have in common.
    pub fn of(alloc: Global, response: &ResponseSpec) -> Result<Prepared, AllocError>
        ensures { IfOk result (IsPrepared response.now) }
    {
        match &response.content {
            Content::Plain { headers, body } => {
                let made = made_of(alloc, response.status, headers.as_slice(), body)?;
                Ok(Prepared::Response(made))
            }
            Content::Templated { headers, .. } => {
                match headers_of_all(alloc, headers.as_slice())? {
                    Some(made) => Ok(Prepared::Headers(made)),
                    None => Ok(Prepared::Nothing),
                }
            }
        }
    }
}

impl Prepared {
    /// Shares these bytes, where they are those of the body that it has, so that they are kept once. Takes no memory.
    pub fn share_body(&mut self, bytes: &Bytes)
        ensures { self.new ≡ self.old }
    {
        if let Prepared::Response(made) = self {
            made.share_body(bytes);
        }
    }
}

// The headers that templates give over each request, if none of them looks at it, and if they are no longer than what
// is kept.
fn headers_of_all(
    alloc: Global,
    headers: &[HeaderLine<TemplateText>],
) -> Result<Option<HeaderMap>, AllocError>
    ensures { IfOk result (λ made. IfSome made (HoldsHeaders headers.now)) }
{
    if !needed_by_headers(headers).is_empty() {
        return Ok(None);
    }
    let no_data = RequestData::within_limit(Data::Nothing);
    let limits = Limits {
        steps: KEPT_STEPS,
        bytes: KEPT_BYTES,
    };
    if !keep_to(limits, headers, &Body::Empty, no_data.size()) {
        return Ok(None);
    }
    let made = rendered_headers(alloc, headers, &no_data)?;
    Ok(Some(header_map(alloc, made)?))
}
