// A request that was forwarded, and the reply to it.
ghost use Rattle.std.specs.Prelude.{◌≡◌, ◌↔◌, IfOk, IsTrue};

use mapping_model::reply::Reply;
use mock_request::snapshot::Snapshot;
use plain_text::plain::Same;
use std::alloc::{AllocError, Global};
use std::marker::Model;
use std::sync::Arc;

/// A request that was forwarded, and the reply to it.
#[derive(Drop)]
pub struct Exchange {
    pub request: Snapshot,
    pub reply: Reply,
    /// When it was started, in milliseconds since the Unix epoch.
    pub started_ms: u64,
    /// How long the reply took, in milliseconds.
    pub wait_ms: u64,
}

impl Exchange {
    pub fn try_clone(&self) -> Result<Exchange, AllocError>
        ensures { IfOk result (λ copy. copy ≡ self.now) }
    {
        Ok(Exchange {
            request: self.request.try_clone()?,
            reply: self.reply.try_clone()?,
            started_ms: self.started_ms,
            wait_ms: self.wait_ms,
        })
    }

    pub fn same(&self, other: &Exchange) -> bool
        ensures { IsTrue result ↔ (self.now ≡ other.now) }
    {
        self.request.same(&other.request)
            && self.reply.same(&other.reply)
            && self.started_ms == other.started_ms
            && self.wait_ms == other.wait_ms
    }
}

/// An exchange, which contracts see as it is: a copy shares it, so that events and recordings keep it once.
pub struct SharedExchange {
    exchange: Arc<Exchange>,
}

// Written out, so that a caller's proof sees one call and not the drop of each part.
impl Drop for SharedExchange {
    fn drop(self) {
        let SharedExchange {
            exchange: _exchange,
        } = self;
    }
}

impl Model for SharedExchange {
    ghost use Rattle.std.specs.Arc.{arc_value};
    ghost use Rattle.recorder.specs.declared.exchange.Exchange.{Exchange};

    ghost Value = { Exchange };

    ghost view = { λ s. arc_value s.exchange };
}

impl SharedExchange {
    pub fn new(alloc: Global, exchange: Exchange) -> Result<SharedExchange, AllocError>
        ensures { IfOk result (λ shared. shared ≡ exchange) }
    {
        Ok(SharedExchange {
            exchange: Arc::new(alloc, exchange)?,
        })
    }

    pub fn exchange(&self) -> &Exchange
        ensures { result.now ≡ self.now }
    {
        &self.exchange
    }

    pub fn same(&self, other: &SharedExchange) -> bool
        ensures { IsTrue result ↔ (self.now ≡ other.now) }
    {
        self.exchange().same(other.exchange())
    }
}

/// Takes no memory.
impl Clone for SharedExchange {
    ghost use Rattle.std.specs.Prelude.{◌≡◌};

    ghost is_clone = { λ original copy. copy ≡ original };

    fn clone(&self) -> Result<SharedExchange, AllocError> {
        Ok(SharedExchange {
            exchange: Arc::try_clone(&self.exchange)?,
        })
    }
}

impl Same for SharedExchange {
    fn same(&self, other: &SharedExchange) -> bool {
        SharedExchange::same(self, other)
    }
}
