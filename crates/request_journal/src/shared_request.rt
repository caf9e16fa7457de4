// A request that events and the journal share.
ghost use Rattle.std.specs.Prelude.{◌≡◌, ◌↔◌, IfOk, IsTrue};

use mock_request::snapshot::Snapshot;
use plain_text::plain::Same;
use std::alloc::{AllocError, Global};
use std::marker::Model;
use std::sync::Arc;

/// A request as it was received, which contracts see as it is: a copy shares it.
pub struct SharedRequest {
    request: Arc<Snapshot>,
}

// Written out, so that a caller's proof sees one call and not the drop of each part.
impl Drop for SharedRequest {
    fn drop(self) {
        let SharedRequest { request: _request } = self;
    }
}

impl Model for SharedRequest {
    ghost use Rattle.std.specs.Arc.{arc_value};
    ghost use Rattle.mock_request.specs.Request.{Request};

    ghost Value = { Request };

    ghost view = { λ s. arc_value s.request };
}

impl SharedRequest {
    pub fn new(alloc: Global, request: Snapshot) -> Result<SharedRequest, AllocError>
        ensures { IfOk result (λ shared. shared ≡ request) }
    {
        Ok(SharedRequest {
            request: Arc::new(alloc, request)?,
        })
    }

    pub fn request(&self) -> &Snapshot
        ensures { result.now ≡ self.now }
    {
        &self.request
    }

    pub fn same(&self, other: &SharedRequest) -> bool
        ensures { IsTrue result ↔ (self.now ≡ other.now) }
    {
        self.request().same(other.request())
    }
}

/// Takes no memory.
impl Clone for SharedRequest {
    ghost use Rattle.std.specs.Prelude.{◌≡◌};

    ghost is_clone = { λ original copy. copy ≡ original };

    fn clone(&self) -> Result<SharedRequest, AllocError> {
        Ok(SharedRequest {
            request: Arc::try_clone(&self.request)?,
        })
    }
}

impl Same for SharedRequest {
    fn same(&self, other: &SharedRequest) -> bool {
        SharedRequest::same(self, other)
    }
}
