// A mapping of the book that is ready to be served.
ghost use Rattle.std.specs.Prelude.{◌≡◌, ◌↔◌, IfOk, IsTrue};
ghost use Rattle.mock_request.specs.Request.{Request};
ghost use Rattle.request_match.specs.Matching.{MeetsRequest};
ghost use Rattle.request_match.specs.Parts.Key.{MayHave, key_of};

use mapping_model::mapping_id::MappingId;
use request_journal::mapping::Mapping;
use request_match::parsed_request::ParsedRequest;
use request_match::ready_mapping::ReadyMapping;
use request_match::shared_spec::SharedSpec;
use request_match::url_key::UrlKey;
use std::alloc::{AllocError, AllocFailed, Global};
use std::marker::Model;

/// A mapping under the id that the book knows it by, with its matcher: contracts see the mapping. It is a few words, so
/// that moving it costs nothing.
pub struct BookMapping {
    id: MappingId,
    ready: Box<ReadyMapping>,
}

// Written out, so that a caller's proof sees one call and not the drop of each part.
impl Drop for BookMapping {
    fn drop(self) {
        let BookMapping {
            id: _id,
            ready: _ready,
        } = self;
    }
}

impl Model for BookMapping {
    ghost use Rattle.request_journal.specs.declared.mapping.Mapping.{Mapping};

    ghost Value = { Mapping };

    ghost view = { λ m. record { id = m.id; spec = m.ready.value } };
}

impl BookMapping {
    pub fn new(alloc: Global, id: MappingId, ready: ReadyMapping) -> Result<BookMapping, AllocError>
        ensures { IfOk result (λ mapping. mapping ≡ record { id = id; spec = ready }) }
    {
        Ok(BookMapping {
            id,
            ready: Box::new(alloc, ready)?,
        })
    }

    pub fn id(&self) -> MappingId
        ensures { result ≡ self.now.id }
    {
        self.id
    }

    pub fn shared(&self) -> &SharedSpec
        ensures { result.now ≡ self.now.spec }
    {
        self.ready.shared()
    }

    /// What its literal URL is known by.
    pub fn key(&self) -> UrlKey
        ensures value { result ≡ key_of self.now.spec.request.url }
        ensures only { (request : Request) → MeetsRequest self.now.spec.request request
            → MayHave result request.url }
    {
        self.ready.matcher().key()
    }

    /// Shares the specification.
    pub fn mapping(&self) -> Result<Mapping, AllocError>
        ensures { IfOk result (λ mapping. mapping ≡ self.now) }
    {
        Ok(Mapping {
            id: self.id,
            spec: self.shared().clone()?,
        })
    }

    /// Whether the request meets its matcher.
    pub fn matches(&mut self, request: &mut ParsedRequest<'_>) -> Result<bool, AllocError>
        ensures answer { IfOk result (λ yes. IsTrue yes ↔ MeetsRequest self.old.spec.request request.old) }
        ensures same { self.new ≡ self.old }
        ensures same_request { request.new ≡ request.old }
    {
        self.ready.matches(request)
    }
}
