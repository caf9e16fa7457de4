// One of the conditions of a mapping.
use mapping_model::body_pattern::BodyPattern;
use mapping_model::named_matcher::NamedMatcher;
use mapping_model::scenario_spec::ScenarioSpec;
use mapping_model::url_spec::UrlSpec;
use plain_text::text::Text;

/// Where the values of a name are.
#[derive(Clone, Copy)]
pub enum Source {
    Header,
    Query,
    Cookie,
}

/// What a mapping asks of a request, or of the state of its scenario.
pub enum Condition {
    Method(Text),
    /// A path template stands here without its parameters.
    Url(UrlSpec),
    /// Of the values of a name.
    Value {
        source: Source,
        matcher: NamedMatcher,
    },
    /// Of what the path template binds a name to.
    PathParameter {
        template: Text,
        matcher: NamedMatcher,
    },
    Body(BodyPattern),
    Scenario(ScenarioSpec),
}

// Written out, so that a caller's proof sees one call and not the drop of each part.
impl Drop for Condition {
    fn drop(self) {
        match self {
            Condition::Method(_wanted) => {}
            Condition::Url(_wanted) => {}
            Condition::Value {
                source: _source,
                matcher: _matcher,
            } => {}
            Condition::PathParameter {
                template: _template,
                matcher: _matcher,
            } => {}
            Condition::Body(_pattern) => {}
            Condition::Scenario(_scenario) => {}
        }
    }
}
