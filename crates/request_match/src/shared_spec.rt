// A mapping as it was written, for those who keep it.
ghost use Rattle.std.specs.Prelude.{◌≡◌, ◌↔◌, IfOk, IsTrue};
ghost use Rattle.stub_response.specs.Prepared.{IsPrepared};

use bytes::Bytes;
use mapping_model::mapping_spec::MappingSpec;
use plain_text::plain::Same;
use std::alloc::{AllocError, Global};
use std::marker::Model;
use std::sync::Arc;
use stub_response::prepared::Prepared;

/// A mapping as it was written, which contracts see as it is: a copy shares it. What its responses have in common is
/// made once with it.
pub struct SharedSpec {
    kept: Arc<Kept>,
}

struct Kept {
    spec: MappingSpec,
    prepared: Prepared,
}

// Written out, so that a caller's proof sees one call and not the drop of each field.
impl Drop for Kept {
    fn drop(self) {
        let Kept {
            spec: _spec,
            prepared: _prepared,
        } = self;
    }
}

impl Model for SharedSpec {
    ghost use Rattle.std.specs.Arc.{arc_value};
    ghost use Rattle.mapping_model.specs.declared.mapping_spec.MappingSpec.{MappingSpec};
    ghost use Rattle.stub_response.specs.Prepared.{IsPrepared};

    ghost Value = { MappingSpec };

    ghost view = { λ s. (arc_value s.kept).spec };

    ghost invariant = { λ s. IsPrepared (arc_value s.kept).spec.response (arc_value s.kept).prepared };
}

impl SharedSpec {
    pub fn new(alloc: Global, spec: MappingSpec) -> Result<SharedSpec, AllocError>
        ensures { IfOk result (λ shared. shared ≡ spec) }
    {
        let prepared = Prepared::of(alloc, &spec.response)?;
        Ok(SharedSpec {
            kept: Arc::new(alloc, Kept { spec, prepared })?,
        })
    }

    /// The same. Where these bytes are those of the body of its responses, these share them.
    pub fn sharing(
        alloc: Global,
        spec: MappingSpec,
        bytes: &Bytes,
    ) -> Result<SharedSpec, AllocError>
        ensures { IfOk result (λ shared. shared ≡ spec) }
    {
        let mut prepared = Prepared::of(alloc, &spec.response)?;
        prepared.share_body(bytes);
        Ok(SharedSpec {
            kept: Arc::new(alloc, Kept { spec, prepared })?,
        })
    }

    pub fn spec(&self) -> &MappingSpec
        ensures { result.now ≡ self.now }
    {
        &self.kept.spec
    }

    /// What its responses have in common.
    pub fn prepared(&self) -> &Prepared
        ensures { IsPrepared self.now.response result.now }
    {
        &self.kept.prepared
    }

    pub fn same(&self, other: &SharedSpec) -> bool
        ensures { IsTrue result ↔ (self.now ≡ other.now) }
    {
        self.spec().same(other.spec())
    }
}

// Written out, so that a caller's proof sees one call and not the drop of each field.
impl Drop for SharedSpec {
    fn drop(self) {
        let SharedSpec { kept: _kept } = self;
    }
}

/// Takes no memory.
impl Clone for SharedSpec {
    ghost use Rattle.std.specs.Prelude.{◌≡◌};

    ghost is_clone = { λ original copy. copy ≡ original };

    fn clone(&self) -> Result<SharedSpec, AllocError> {
        Ok(SharedSpec {
            kept: Arc::try_clone(&self.kept)?,
        })
    }
}

impl Same for SharedSpec {
    fn same(&self, other: &SharedSpec) -> bool {
        SharedSpec::same(self, other)
    }
}
