// The reply that a message of an upstream is.
ghost use Rattle.std.specs.Prelude.{IfOk};
ghost use Rattle.proxy_client.specs.Messages.{IsReplyMessage};

use bytes::Bytes;
use http::response::Parts;
use mapping_model::reply::Reply;
use recorder::forwarding::relayed_headers;
use std::alloc::{AllocError, Global};

/// The reply that a message with this head and this content is.
pub fn reply_of(alloc: Global, head: &Parts, content: Bytes) -> Result<Reply, AllocError>
    ensures { IfOk result (IsReplyMessage head.now content) }
{
    Ok(Reply {
        status: head.status.as_u16(),
        headers: relayed_headers(alloc, &head.headers)?,
        body: content,
    })
}
