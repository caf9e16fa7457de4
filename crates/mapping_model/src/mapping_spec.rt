// A stub mapping.
ghost use Rattle.std.specs.Prelude.{◌≡◌, ◌↔◌, IfOk, IsTrue};
ghost use Rattle.mapping_model.specs.Priority.{priority_of};

use crate::mapping_id::MappingId;
use crate::request_spec::RequestSpec;
use crate::response_spec::ResponseSpec;
use crate::same_option::same_option;
use crate::scenario_spec::ScenarioSpec;
use plain_text::text::Text;
use std::alloc::AllocError;

/// The priority of a mapping that has none of its own.
pub const DEFAULT_PRIORITY: i32 = 5;

/// A stub mapping as it was written.
pub struct MappingSpec {
    /// Absent until the event that adds the mapping gives it one.
    pub id: Option<MappingId>,
    pub name: Option<Text>,
    /// The lower number wins.
    pub priority: Option<i32>,
    pub scenario: Option<ScenarioSpec>,
    pub request: RequestSpec,
    pub response: ResponseSpec,
}

impl MappingSpec {
    /// The priority, or the default one.
    pub fn priority_number(&self) -> i32
        ensures { result ≡ priority_of self.now.priority }
    {
        self.priority.unwrap_or(DEFAULT_PRIORITY)
    }

    /// A copy, which shares the programs of templates.
    pub fn try_clone(&self) -> Result<MappingSpec, AllocError>
        ensures { IfOk result (λ copy. copy ≡ self.now) }
    {
        Ok(MappingSpec {
            id: self.id,
            name: self.name.clone()?,
            priority: self.priority,
            scenario: self.scenario.clone()?,
            request: self.request.clone()?,
            response: self.response.clone()?,
        })
    }

    pub fn same(&self, other: &MappingSpec) -> bool
        ensures { IsTrue result ↔ (self.now ≡ other.now) }
    {
        self.id == other.id
            && same_option(&self.name, &other.name)
            && self.priority == other.priority
            && same_option(&self.scenario, &other.scenario)
            && self.request.same(&other.request)
            && self.response.same(&other.response)
    }
}

// Written out, so that a caller's proof sees one call and not the drop of each field.
impl Drop for MappingSpec {
    fn drop(self) {
        let MappingSpec {
            id: _id,
            name: _name,
            priority: _priority,
            scenario: _scenario,
            request: _request,
            response: _response,
        } = self;
    }
}
