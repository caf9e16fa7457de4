// Replies that name the media type of their body.
ghost use Rattle.std.specs.Prelude.{◌≡◌, IfOk, codes, string_bytes};
ghost use Rattle.stub_response.specs.ErrorReply.{typed_reply};

use bytes::Bytes;
use mapping_model::field_name::FieldName;
use mapping_model::reply::{Reply, ReplyHeader};
use plain_text::items::Items;
use plain_text::octets::Octets;
use plain_text::text::Text;
use std::alloc::{AllocError, Global};

/// The reply with that status and body, and its media type as the one header.
pub(crate) fn typed_reply(
    alloc: Global,
    status: u16,
    media_type: &str,
    body: String,
) -> Result<Reply, AllocError>
    ensures { IfOk result (λ reply. reply ≡ typed_reply status media_type.now (string_bytes body)) }
{
    let header = ReplyHeader {
        name: content_type(alloc)?,
        value: Octets::from(Vec::from_slice(alloc, media_type.as_bytes())?),
    };
    Ok(Reply {
        status,
        headers: Items::from(vec![in alloc; header]?),
        body: Bytes::from_string(body)?,
    })
}

fn content_type(alloc: Global) -> Result<FieldName, AllocError>
    ensures { IfOk result (λ name. name ≡ codes "content-type") }
{
    match FieldName::new(Text::from(String::from_str(alloc, "content-type")?)) {
        Some(name) => Ok(name),
        None => unreachable!(),
    }
}
