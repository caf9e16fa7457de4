// The parts of the documents that are read.
use crate::leaf::Leaf;
use crate::sought::Sought;
use serde_json::{Map, Value};

/// What a value in a document is there for.
#[derive(Clone, Copy)]
pub(crate) enum Part {
    Mapping,
    Request,
    /// An object with a value matcher at each name.
    ValueMatchers,
    ValueMatcher,
    /// A list of matchers.
    BodyMatchers,
    BodyMatcher,
    /// A JSON path, or an object with one and a value matcher on what it finds.
    PathMatcher,
    Response,
    Headers,
    /// A text, or a list of texts.
    Header,
    Transformers,
    /// What starts a recording.
    Recording,
    /// An object with an empty object at the name of each header.
    CapturedHeaders,
    /// What sets the state of a scenario.
    ScenarioState,
    Leaf(Leaf),
}

/// What a member of an object is there for.
#[derive(Clone, Copy)]
pub(crate) enum Field {
    Known(Part),
    /// Whatever it is, it has no part in an error.
    Ignored,
    /// It isn't one of the fields that these words name.
    Unsupported(&'static str),
}

pub(crate) const VALUE_WORDS: &str =
    "equalTo (with caseInsensitive), contains, doesNotContain, matches, doesNotMatch, absent";

pub(crate) const BODY_WORDS: &str =
    "equalTo (with caseInsensitive), contains, doesNotContain, matches, doesNotMatch, absent, binaryEqualTo, \
    equalToJson (with ignoreArrayOrder, ignoreExtraElements), matchesJsonPath";

const REQUEST_WORDS: &str =
    "method, url, urlPattern, urlPath, urlPathPattern, urlPathTemplate, headers, queryParameters, cookies, \
    pathParameters, bodyPatterns";

const RESPONSE_WORDS: &str =
    "status, statusMessage, headers, body, jsonBody, base64Body, transformers";

const RECORDING_WORDS: &str = "targetBaseUrl, captureHeaders, repeatsAsScenarios, persist";

impl Part {
    /// Whether it is an object, or may be one.
    pub(crate) fn has_members(self) -> bool {
        match self {
            Part::BodyMatchers | Part::Header | Part::Transformers | Part::Leaf(_) => false,
            _ => true,
        }
    }

    /// What its items are, if it is a list, or may be one.
    pub(crate) fn item(self) -> Option<Part> {
        match self {
            Part::BodyMatchers => Some(Part::BodyMatcher),
            Part::Header => Some(Part::Leaf(Leaf::Source)),
            Part::Transformers => Some(Part::Leaf(Leaf::Transformer)),
            _ => None,
        }
    }

    /// What it is where it is a single value.
    pub(crate) fn leaf(self, value: &Value) -> Option<Leaf> {
        match self {
            Part::Leaf(leaf) => Some(leaf),
            Part::PathMatcher if value.is_string() => Some(Leaf::JsonPath),
            Part::Header if value.is_string() => Some(Leaf::Source),
            _ => None,
        }
    }

    /// What its value has to be, in words.
    pub(crate) fn wanted(self) -> &'static str {
        match self {
            Part::ValueMatchers => "an object with a matcher at each name",
            Part::ValueMatcher | Part::BodyMatcher => {
                "an object with a matcher, as {\"equalTo\":\"text\"}"
            }
            Part::BodyMatchers => "a list of matchers",
            Part::PathMatcher => "a JSON path, or an object with one as `expression`",
            Part::Headers => "an object with a text, or a list of texts, at each name",
            Part::Header => "a text, or a list of texts",
            Part::Transformers => "a list of transformers, as [\"response-template\"]",
            Part::CapturedHeaders => "an object with an empty object at the name of each header",
            _ => "an object",
        }
    }
}

impl Field {
    /// Into which part the search goes on.
    pub(crate) fn part(self, sought: Sought) -> Option<Part> {
        match self {
            Field::Known(Part::Response) => Some(Part::Response),
            // A number that isn't taken is wrong wherever it is.
            Field::Known(part) => if sought == Sought::Number {
                None
            } else {
                Some(part)
            },
            _ => None,
        }
    }
}

/// What the member at this name is there for.
pub(crate) fn field_of(part: Part, name: &str, members: &Map<String, Value>) -> Field {
    match part {
        Part::Mapping => mapping_field(name, members),
        Part::Request => request_field(name),
        Part::Response => response_field(name),
        Part::ValueMatchers => Field::Known(Part::ValueMatcher),
        Part::Headers => Field::Known(Part::Header),
        Part::BodyMatcher => body_field(name),
        Part::PathMatcher => path_field(name),
        Part::Recording => recording_field(name),
        Part::CapturedHeaders => Field::Known(Part::Leaf(Leaf::EmptyObject)),
        Part::ScenarioState => state_field(name),
        _ => value_field(name, VALUE_WORDS),
    }
}

fn mapping_field(name: &str, members: &Map<String, Value>) -> Field {
    match name {
        "request" => Field::Known(Part::Request),
        "response" => Field::Known(Part::Response),
        "id" => Field::Known(Part::Leaf(Leaf::Uuid)),
        // It is read only where there is no `id`.
        "uuid" => if members.contains_key("id") {
            Field::Ignored
        } else {
            Field::Known(Part::Leaf(Leaf::Uuid))
        },
        "name" | "scenarioName" | "requiredScenarioState" | "newScenarioState" => {
            Field::Known(Part::Leaf(Leaf::Text))
        }
        "priority" => Field::Known(Part::Leaf(Leaf::Priority)),
        "postServeActions" | "serveEventListeners" => Field::Known(Part::Leaf(Leaf::EmptyList)),
        _ => Field::Ignored,
    }
}

fn request_field(name: &str) -> Field {
    match name {
        "method" | "url" | "urlPath" => Field::Known(Part::Leaf(Leaf::Text)),
        "urlPattern" | "urlPathPattern" => Field::Known(Part::Leaf(Leaf::Pattern)),
        "urlPathTemplate" => Field::Known(Part::Leaf(Leaf::PathTemplate)),
        "headers" | "queryParameters" | "cookies" | "pathParameters" => {
            Field::Known(Part::ValueMatchers)
        }
        "bodyPatterns" => Field::Known(Part::BodyMatchers),
        _ => Field::Unsupported(REQUEST_WORDS),
    }
}

fn response_field(name: &str) -> Field {
    match name {
        "status" => Field::Known(Part::Leaf(Leaf::Status)),
        "statusMessage" => Field::Ignored,
        "headers" => Field::Known(Part::Headers),
        "body" => Field::Known(Part::Leaf(Leaf::Source)),
        "jsonBody" => Field::Known(Part::Leaf(Leaf::Json)),
        "base64Body" => Field::Known(Part::Leaf(Leaf::Base64)),
        "transformers" => Field::Known(Part::Transformers),
        _ => Field::Unsupported(RESPONSE_WORDS),
    }
}

fn value_field(name: &str, words: &'static str) -> Field {
    match name {
        "equalTo" | "contains" | "doesNotContain" => Field::Known(Part::Leaf(Leaf::Text)),
        "matches" | "doesNotMatch" => Field::Known(Part::Leaf(Leaf::Pattern)),
        "caseInsensitive" => Field::Known(Part::Leaf(Leaf::Truth)),
        "absent" => Field::Known(Part::Leaf(Leaf::True)),
        _ => Field::Unsupported(words),
    }
}

fn body_field(name: &str) -> Field {
    match name {
        "binaryEqualTo" => Field::Known(Part::Leaf(Leaf::Base64)),
        "equalToJson" => Field::Known(Part::Leaf(Leaf::ExpectedJson)),
        "ignoreArrayOrder" | "ignoreExtraElements" => Field::Known(Part::Leaf(Leaf::Truth)),
        "matchesJsonPath" => Field::Known(Part::PathMatcher),
        name => value_field(name, BODY_WORDS),
    }
}

fn path_field(name: &str) -> Field {
    match name {
        "expression" => Field::Known(Part::Leaf(Leaf::JsonPath)),
        name => value_field(name, VALUE_WORDS),
    }
}

fn recording_field(name: &str) -> Field {
    match name {
        "targetBaseUrl" => Field::Known(Part::Leaf(Leaf::Target)),
        "captureHeaders" => Field::Known(Part::CapturedHeaders),
        "repeatsAsScenarios" => Field::Known(Part::Leaf(Leaf::Truth)),
        "persist" => Field::Ignored,
        _ => Field::Unsupported(RECORDING_WORDS),
    }
}

fn state_field(name: &str) -> Field {
    match name {
        "state" => Field::Known(Part::Leaf(Leaf::Text)),
        _ => Field::Unsupported("state"),
    }
}
