// The response of a mapping for a request: the mapping's status, headers and body, or what they give as templates over
// the request's data, within the server's limits; and the replies of the server's own. Its contracts cite
// `specs/Response.antt` (the response), `specs/PlainResponse.antt` (what all responses without templates have),
// `specs/Prepared.antt` (what the responses of a mapping have in common), `specs/Headers.antt` (headers as `http` holds
// them), `specs/Limits.antt` (what keeps to the limits), `specs/HeaderText.antt` (the values of headers) and
// `specs/ErrorReply.antt`.
#![tactic(auto)]

pub mod error_reply;
mod header_text;
pub mod headers;
pub mod limits;
mod needs;
mod plain;
pub mod plain_response;
pub mod prepared;
mod rendered;
pub mod respond;
mod templated;
mod typed_reply;
pub mod unmatched_reply;
