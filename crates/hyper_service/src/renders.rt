// What renders the responses that take long.
ghost use Rattle.std.specs.Prelude.{IfOk, IfSome};
ghost use Rattle.answering.specs.Rendering.{IsRenderedReply};

use answering::rendering::Rendering;
use futures::Future;
use mapping_model::reply::Reply;
use std::alloc::AllocError;

/// Renders responses beside the connections of a server.
pub trait Renders: Drop {
    type Run: Future<Output = Result<Reply, AllocError>>;

    /// What renders the response. It is a future that never blocks. `None` where there can't be one.
    fn start(&self, rendering: &Rendering) -> Option<Self::Run>
        ensures can_poll { IfSome result Self.Run.can_poll }
        ensures gives { IfSome result (λ run. (given : _)
            → Self.Run.gives run given → IfOk given (IsRenderedReply rendering.now)) };
}
