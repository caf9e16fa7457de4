// A matcher of the values of a name.

use plain_text::plain::Same;
use plain_text::text::Text;
use value_match::value_spec::ValueSpec;

/// What the values of a header, a query parameter, a cookie or a path parameter have to meet.
#[derive(Clone, Drop)]
pub struct NamedMatcher {
    pub name: Text,
    pub matcher: ValueSpec,
}

impl Same for NamedMatcher {
    fn same(&self, other: &NamedMatcher) -> bool {
        self.name.same(&other.name) && self.matcher.same(&other.matcher)
    }
}
