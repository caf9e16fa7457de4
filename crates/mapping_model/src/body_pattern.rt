// What the body of a request has to meet.

use json_match::json_spec::JsonSpec;
use plain_text::octets::Octets;
use plain_text::plain::Same;
use plain_text::text::Text;
use value_match::value_spec::ValueSpec;

/// A body matcher as it was written.
#[derive(Clone, Drop)]
pub enum BodyPattern {
    /// On the text of the body.
    Value(ValueSpec),
    BinaryEqualTo(Octets),
    Json(JsonSpec),
    /// On the text of what a JSON path gives.
    JsonPath {
        expression: Text,
        matcher: ValueSpec,
    },
}

impl Same for BodyPattern {
    fn same(&self, other: &BodyPattern) -> bool {
        match (self, other) {
            (BodyPattern::Value(a), BodyPattern::Value(b)) => a.same(b),
            (BodyPattern::BinaryEqualTo(a), BodyPattern::BinaryEqualTo(b)) => a.same(b),
            (BodyPattern::Json(a), BodyPattern::Json(b)) => a.same(b),
            (
                BodyPattern::JsonPath {
                    expression: a,
                    matcher: a_matcher,
                },
                BodyPattern::JsonPath {
                    expression: b,
                    matcher: b_matcher,
                },
            ) => a.same(b) && a_matcher.same(b_matcher),
            _ => false,
        }
    }
}
