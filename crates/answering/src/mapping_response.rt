// The response of a mapping.
ghost use Rattle.std.specs.Prelude.{IfOk};
ghost use Rattle.answering.specs.Inner.Sent.{HasBegun};
ghost use Rattle.stub_response.specs.Prepared.{IsPrepared};
ghost use Rattle.stub_response.specs.Response.{IsRendering};
ghost use Rattle.stub_response.specs.declared.prepared.Prepared.TheVariants.{Headers};

use crate::begun::Begun;
use crate::content::Content;
use crate::response::{error_response, response_of, response_with};
use error_code::error_code::ErrorCode;
use http::HeaderMap;
use http_messages::error::ServiceError;
use mapping_model::mapping_spec::MappingSpec;
use mock_request::snapshot::Snapshot;
use request_match::shared_spec::SharedSpec;
use std::alloc::Global;
use stub_response::limits::Limits;
use stub_response::prepared::Prepared;
use stub_response::respond::{respond, respond_body};

/// The response of a mapping for a request, made for it. Headers that were made once with the mapping are shared. (A
/// response that was made so as a whole is given by `begin_event`.)
pub(crate) fn mapping_response(
    alloc: Global,
    mapping: &SharedSpec,
    request: &Snapshot,
    limits: Limits,
) -> Result<Begun, ServiceError>
    ensures { IfOk result (HasBegun (IsRendering limits mapping.now request.now) (λ _. ⊥) (λ _. ⊥)) }
{
    match mapping.prepared() {
        Prepared::Headers(headers) => {
            templated_body_response(alloc, mapping.spec(), headers, request, limits)
        }
        _ => whole_response(alloc, mapping.spec(), request, limits),
    }
}

// Not inlined: where headers were made before, none of its locals is needed.
#[inline(never)]
fn whole_response(
    alloc: Global,
    mapping: &MappingSpec,
    request: &Snapshot,
    limits: Limits,
) -> Result<Begun, ServiceError>
    ensures { IfOk result (HasBegun (IsRendering limits mapping.now request.now) (λ _. ⊥) (λ _. ⊥)) }
{
    let reply = respond(alloc, mapping, request, limits)?;
    let response = response_of(alloc, reply)?;
    Ok(Begun::Answered(response))
}

// The headers were made before.
fn templated_body_response(
    alloc: Global,
    mapping: &MappingSpec,
    headers: &HeaderMap,
    request: &Snapshot,
    limits: Limits,
) -> Result<Begun, ServiceError>
    requires { IsPrepared mapping.now.response (Headers headers.now) }
    ensures { IfOk result (HasBegun (IsRendering limits mapping.now request.now) (λ _. ⊥) (λ _. ⊥)) }
{
    let status = mapping.response.status.code();
    match respond_body(alloc, mapping, request, limits)? {
        Some(body) => Ok(Begun::Answered(response_with(
            status,
            headers.clone()?,
            Content::whole(body),
        ))),
        None => {
            let response = error_response(alloc, 500, ErrorCode::OverBudget)?;
            Ok(Begun::Answered(response))
        }
    }
}
