// The reply to a request that no mapping matches.
ghost use Rattle.std.specs.Prelude.{◌≡◌, IfOk};
ghost use Rattle.stub_response.specs.ErrorReply.{unmatched_reply};

use crate::typed_reply::typed_reply;
use mapping_model::reply::Reply;
use std::alloc::{AllocError, Global};

/// The reply to a request that no mapping matches, and that isn't forwarded.
pub fn unmatched_reply(alloc: Global) -> Result<Reply, AllocError>
    ensures { IfOk result (λ reply. reply ≡ unmatched_reply) }
{
    let body = String::from_str(alloc, "No matching stub mapping\n")?;
    typed_reply(alloc, 404, "text/plain", body)
}
