// Replies with a JSON body, and the one that reports an error.
ghost use Rattle.std.specs.Prelude.{◌≡◌, IfOk, string_bytes};
ghost use Rattle.stub_response.specs.ErrorReply.{error_body, error_reply, json_reply};

use crate::typed_reply::typed_reply;
use error_code::error_code::ErrorCode;
use itoa::Buffer;
use mapping_model::reply::Reply;
use std::alloc::{AllocError, Global};

/// The reply with that status whose JSON body reports the error.
pub fn error_reply(alloc: Global, status: u16, code: ErrorCode) -> Result<Reply, AllocError>
    ensures { IfOk result (λ reply. reply ≡ error_reply status code) }
{
    json_reply(alloc, status, error_body(alloc, code)?)
}

/// The reply with that status whose body is this JSON text.
pub fn json_reply(alloc: Global, status: u16, body: String) -> Result<Reply, AllocError>
    ensures { IfOk result (λ reply. reply ≡ json_reply status (string_bytes body)) }
{
    typed_reply(alloc, status, "application/json", body)
}

fn error_body(alloc: Global, code: ErrorCode) -> Result<String, AllocError>
    ensures { IfOk result (λ body. string_bytes body ≡ error_body code) }
{
    let mut body = String::from_str(alloc, "{\"errors\":[{\"code\":")?;
    body.push_str(Buffer::new().format(code.number()))?;
    body.push_str(",\"title\":\"")?;
    body.push_str(code.title())?;
    body.push_str("\"}]}")?;
    Ok(body)
}
