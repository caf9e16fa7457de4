// What forwards the requests of a server.
ghost use Rattle.std.specs.Prelude.{ℕ, List, IfOk, ⊤};
ghost use Rattle.mock_request.specs.Request.{Request};
ghost use Rattle.proxy_client.specs.Messages.{IsSomeReply};

use crate::error::ProxyError;
use futures::Future;
use mapping_model::reply::Reply;
use mock_request::snapshot::Snapshot;
use recorder::target::Target;
use tokio::runtime::Handle;

/// Forwards requests to their upstreams.
pub trait Forwards: Drop {
    ghost use Rattle.std.specs.Prelude.{ℕ, List, IfOk, ⊤};
    ghost use Rattle.mock_request.specs.Request.{Request};
    ghost use Rattle.proxy_client.specs.Messages.{IsSomeReply};

    type Exchange: Future<Output = Result<Reply, ProxyError>>;

    /// By the exchange the request may be sent to the upstream.
    ghost sends: { List ℕ → Request → Self.Exchange → Type 0 } = { λ _ _ _. ⊤ };

    /// Requests to that upstream are forwarded.
    ghost reaches: { Self → List ℕ → Type 0 } = { λ _ _. ⊤ };

    /// The exchange for a request with its upstream, which the runtime of this handle drives. It is a future that never
    /// blocks.
    fn exchange(
        &self,
        handle: &Handle,
        target: &Target,
        request: &Snapshot,
    ) -> Result<Self::Exchange, ProxyError>
        ensures can_poll { IfOk result Self.Exchange.can_poll }
        ensures sends { IfOk result (sends target.now request.now) }
        ensures reaches { IfOk result (λ exchange. reaches self.now target.now) }
        ensures gives { IfOk result (λ exchange. (given : _)
            → Self.Exchange.gives exchange given → IfOk given IsSomeReply) };
}
