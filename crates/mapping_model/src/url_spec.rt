// What the URL of a request has to meet.
ghost use Rattle.std.specs.Prelude.{◌≡◌, ◌↔◌, IsTrue};

use crate::named_matcher::NamedMatcher;
use plain_text::items::Items;
use plain_text::text::Text;

/// A URL matcher as it was written (WireMock's documentation, "URL matching"). A request has one at most, and path
/// parameters only with a template.
#[derive(Clone, Drop)]
pub enum UrlSpec {
    Any,
    /// The path and the query.
    Url(Text),
    UrlPattern(Text),
    /// The path alone.
    UrlPath(Text),
    UrlPathPattern(Text),
    UrlPathTemplate {
        template: Text,
        parameters: Items<NamedMatcher>,
    },
}

impl UrlSpec {
    pub fn same(&self, other: &UrlSpec) -> bool
        ensures { IsTrue result ↔ (self.now ≡ other.now) }
    {
        match (self, other) {
            (UrlSpec::Any, UrlSpec::Any) => true,
            (UrlSpec::Url(a), UrlSpec::Url(b)) => a.same(b),
            (UrlSpec::UrlPattern(a), UrlSpec::UrlPattern(b)) => a.same(b),
            (UrlSpec::UrlPath(a), UrlSpec::UrlPath(b)) => a.same(b),
            (UrlSpec::UrlPathPattern(a), UrlSpec::UrlPathPattern(b)) => a.same(b),
            (
                UrlSpec::UrlPathTemplate {
                    template: a,
                    parameters: a_parameters,
                },
                UrlSpec::UrlPathTemplate {
                    template: b,
                    parameters: b_parameters,
                },
            ) => a.same(b) && a_parameters.same(b_parameters),
            _ => false,
        }
    }
}
