// A mapping whose patterns and templates aren't judged yet.
ghost use Rattle.std.specs.Prelude.{IfOk, IfErr};
ghost use Rattle.mapping_json.specs.Spelling.{IsMappingOf, IsDraftError};

use crate::error::MappingError;
use mapping_model::mapping_id::MappingId;
use mapping_model::mapping_spec::MappingSpec;
use mapping_model::request_spec::RequestSpec;
use mapping_model::scenario_spec::ScenarioSpec;
use plain_text::text::Text;
use request_match::ready_mapping::ReadyMapping;
use request_match::request_matcher::RequestMatcher;
use response_json::draft::ResponseDraft;
use std::alloc::Global;
use template_tree::escape::Escape;

/// A mapping as it is read: patterns, paths and templates are texts still.
#[derive(Drop)]
pub struct MappingDraft {
    pub id: Option<MappingId>,
    pub name: Option<Text>,
    pub priority: Option<i32>,
    pub scenario: Option<ScenarioSpec>,
    pub request: RequestSpec,
    pub response: ResponseDraft,
}

impl MappingDraft {
    /// The mapping, with its matcher built and its templates, whose prints are escaped so, compiled. What is wrong with
    /// the matcher is reported before what is wrong with a template.
    #[tactic(auto, using(crate::proofs::ErrorLemmas::request_error, crate::proofs::ErrorLemmas::template_error))]
    pub fn build(self, alloc: Global, escape: Escape) -> Result<ReadyMapping, MappingError>
        ensures ok { IfOk result (IsMappingOf escape self) }
        ensures error { IfErr result (IsDraftError escape self) }
    {
        let MappingDraft {
            id,
            name,
            priority,
            scenario,
            request,
            response,
        } = self;
        match response.compile(alloc, escape) {
            Ok(response) => {
                Ok(ReadyMapping::build(
                    alloc,
                    MappingSpec {
                        id,
                        name,
                        priority,
                        scenario,
                        request,
                        response,
                    },
                )?)
            }
            Err(error) => {
                let _matcher = RequestMatcher::build(alloc, &request)?;
                Err(MappingError::from(error))
            }
        }
    }
}
