// A mapping that is ready to be served.
ghost use Rattle.std.specs.Prelude.{◌≡◌, ◌↔◌, IfOk, IfErr, OnOk, IsTrue};
ghost use Rattle.request_match.specs.Matching.{MeetsRequest};
ghost use Rattle.request_match.specs.Refusal.{CanBeBuilt, IsRefusal};

use crate::error::RequestMatchError;
use crate::parsed_request::ParsedRequest;
use crate::request_matcher::RequestMatcher;
use crate::shared_spec::SharedSpec;
use bytes::Bytes;
use mapping_model::mapping_spec::MappingSpec;
use std::alloc::{AllocError, Global};
use std::marker::Model;

/// A mapping with the matcher built from it: contracts see the mapping.
pub struct ReadyMapping {
    spec: SharedSpec,
    matcher: RequestMatcher,
}

impl Model for ReadyMapping {
    ghost use Rattle.std.specs.Prelude.{◌≡◌};
    ghost use Rattle.mapping_model.specs.declared.mapping_spec.MappingSpec.{MappingSpec};

    ghost Value = { MappingSpec };

    ghost view = { λ m. m.spec };

    ghost invariant = { λ m. m.matcher ≡ m.spec.request };
}

impl ReadyMapping {
    /// Takes the mapping over.
    pub fn build(alloc: Global, spec: MappingSpec) -> Result<ReadyMapping, RequestMatchError>
        ensures ok { IfOk result (λ mapping. mapping ≡ spec) }
        ensures usable { OnOk result (CanBeBuilt spec.request) }
        ensures refusal { IfErr result (IsRefusal spec.request) }
    {
        let matcher = RequestMatcher::build(alloc, &spec.request)?;
        let spec = SharedSpec::new(alloc, spec)?;
        Ok(ReadyMapping { spec, matcher })
    }

    /// The same. Where these bytes are those of the body of its responses, these share them.
    pub fn build_sharing(
        alloc: Global,
        spec: MappingSpec,
        bytes: &Bytes,
    ) -> Result<ReadyMapping, RequestMatchError>
        ensures ok { IfOk result (λ mapping. mapping ≡ spec) }
        ensures usable { OnOk result (CanBeBuilt spec.request) }
        ensures refusal { IfErr result (IsRefusal spec.request) }
    {
        let matcher = RequestMatcher::build(alloc, &spec.request)?;
        let spec = SharedSpec::sharing(alloc, spec, bytes)?;
        Ok(ReadyMapping { spec, matcher })
    }

    pub fn spec(&self) -> &MappingSpec
        ensures { result.now ≡ self.now }
    {
        self.spec.spec()
    }

    /// For those who keep the mapping: a copy shares it.
    pub fn shared(&self) -> &SharedSpec
        ensures { result.now ≡ self.now }
    {
        &self.spec
    }

    /// For its literal URL.
    pub fn matcher(&self) -> &RequestMatcher
        ensures { result.now ≡ self.now.request }
    {
        &self.matcher
    }

    /// Whether the request meets its matcher.
    pub fn matches(&mut self, request: &mut ParsedRequest<'_>) -> Result<bool, AllocError>
        ensures answer { IfOk result (λ yes. IsTrue yes ↔ MeetsRequest self.old.request request.old) }
        ensures same { self.new ≡ self.old }
        ensures same_request { request.new ≡ request.old }
    {
        self.matcher.matches(request)
    }
}

// Written out, so that a caller's proof sees one call and not the drop of each field.
impl Drop for ReadyMapping {
    fn drop(self) {
        let ReadyMapping {
            spec: _spec,
            matcher: _matcher,
        } = self;
    }
}
