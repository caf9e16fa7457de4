// A reply whose body is a JSON value.
ghost use Rattle.std.specs.Prelude.{IfOk};
ghost use Rattle.admin_answers.specs.JsonReply.{IsJsonReply};
ghost use Rattle.serde_json.specs.View.{view};

use mapping_model::reply::Reply;
use serde_json::Value;
use std::alloc::{AllocError, Global};
use stub_response::error_reply::json_reply;

/// The reply with that status whose body is the value.
pub(crate) fn value_reply(alloc: Global, status: u16, value: &Value) -> Result<Reply, AllocError>
    ensures { IfOk result (IsJsonReply status (view value.now)) }
{
    json_reply(alloc, status, value.to_string(alloc)?)
}
