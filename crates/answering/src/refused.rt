// Admin calls that are refused.
ghost use Rattle.std.specs.Prelude.{◌≡◌, ◌⊎◌, ◌++◌, ◌∷◌, []};
ghost use Rattle.answering.specs.Reason.{IsRefusalReply};

use crate::content::Content;
use crate::header::header;
use call_refusal::reason::Reason;
use http::Response;
use mapping_model::reply::{Reply, ReplyHeader};
use plain_text::items::Items;
use std::alloc::Global;

/// The header that says why a call is refused.
const REASON: &str = "x-mock-reason";

/// The response to an admin call that is refused, and what there is to tell of that.
#[derive(Drop)]
pub struct Refused {
    pub response: Response<Content>,
    /// Whole lines; nothing where there was no memory for them.
    pub lines: String,
}

impl Refused {
    pub fn into_response(self) -> Response<Content>
        ensures { result ≡ self.response }
    {
        let Refused {
            response,
            lines: _lines,
        } = self;
        response
    }
}

/// The reply with a header that says why, if there is a reason, and memory for it.
pub(crate) fn with_reason(alloc: Global, reply: Reply, reason: Option<Reason>) -> Reply
    ensures { IsRefusalReply reply result }
{
    let Some(reason) = reason else { return reply };
    match header(alloc, REASON, reason.into_octets()) {
        Ok(line) => {
            let Reply {
                status,
                headers,
                body,
            } = reply;
            Reply {
                status,
                headers: with_line(headers, line),
                body,
            }
        }
        Err(_error) => reply,
    }
}

// The lines with one more; or as they were, where there is no memory for that.
fn with_line(headers: Items<ReplyHeader>, line: ReplyHeader) -> Items<ReplyHeader>
    ensures { (result ≡ headers) ⊎ (result ≡ headers ++ line ∷ []) }
{
    let mut lines = headers.into_vec();
    let _ = lines.push(line);
    Items::from(lines)
}
