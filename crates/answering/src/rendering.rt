// A response that takes long to render.
ghost use Rattle.std.specs.Prelude.{◌≡◌, IfErr, IfOk};
ghost use Rattle.answering.specs.Rendering.{IsRenderedReply, IsResponseOfRendered};
ghost use Rattle.http_messages.specs.declared.error.ServiceError.TheVariants.{OutOfMemory as NoMemory};

use crate::content::Content;
use crate::response::{error_response, response_of};
use error_code::error_code::ErrorCode;
use http::Response;
use http_messages::error::ServiceError;
use mapping_model::reply::Reply;
use request_journal::event::Captured;
use request_journal::shared_request::SharedRequest;
use std::alloc::{AllocError, Global};
use stub_response::limits::Limits;
use stub_response::respond::respond;

/// A request that was served, whose response is still to be rendered, because that may take long. It shares the request
/// and the version of the mapping with the event of the serve, so an edit of the mapping changes nothing of it.
pub struct Rendering {
    /// That of the serve's event.
    pub number: u64,
    pub request: SharedRequest,
    /// The mapping that was chosen, as it was then.
    pub captured: Captured,
    pub limits: Limits,
}

// Written out, so that a caller's proof sees one call and not the drop of each part.
impl Drop for Rendering {
    fn drop(self) {
        let Rendering {
            number: _number,
            request: _request,
            captured: _captured,
            limits: _limits,
        } = self;
    }
}

impl Rendering {
    /// Takes no memory.
    pub fn try_clone(&self) -> Result<Rendering, AllocError>
        ensures { IfOk result (λ copy. copy ≡ self.now) }
    {
        Ok(Rendering {
            number: self.number,
            request: self.request.clone()?,
            captured: self.captured.try_clone()?,
            limits: self.limits,
        })
    }

    /// The reply, rendered now. It takes neither lock nor seat, so any thread may do it.
    pub fn reply(&self, alloc: Global) -> Result<Reply, AllocError>
        ensures { IfOk result (IsRenderedReply self.now) }
    {
        let mapping = self.captured.mapping.spec.spec();
        respond(alloc, mapping, self.request.request(), self.limits)
    }
}

/// The response of what was rendered, or 503 where memory ran out. The error says that there was no memory for that 503
/// either.
pub fn rendered_response(
    alloc: Global,
    rendered: Result<Reply, AllocError>,
) -> Result<Response<Content>, ServiceError>
    ensures ok { IfOk result (IsResponseOfRendered rendered) }
    ensures err { IfErr result (λ error. error ≡ NoMemory) }
{
    if let Ok(reply) = rendered {
        if let Ok(response) = response_of(alloc, reply) {
            return Ok(response);
        }
    }
    Ok(error_response(alloc, 503, ErrorCode::OutOfMemory)?)
}
