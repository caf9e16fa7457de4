// What is taken, and yet hasn't the effect that was probably meant.
use crate::budget::always_over;
use crate::part::{Field, Part, field_of};
use crate::shown::{joined, quoted};
use crate::unknown_names::{add_unknown_names, binds};
use path_template::error::PathTemplateError;
use path_template::path_template::PathTemplate;
use serde_json::{Map, Value};
use std::alloc::{AllocError, Global};

const IS_NO_TEMPLATE: &str =
    " is no template, its {{ is sent as it is: it is one where `transformers` names `response-template`";

/// The warnings of a mapping, each a sentence.
pub(crate) fn warnings_of(alloc: Global, value: &Value) -> Result<Vec<String>, AllocError> {
    let mut warnings = Warnings {
        alloc,
        sentences: Vec::new(alloc),
    };
    warnings.add_ignored(value)?;
    warnings.add_lonely(value, "requiredScenarioState")?;
    warnings.add_lonely(value, "newScenarioState")?;
    if let Some(request) = value.get("request") {
        warnings.add_method(request)?;
        warnings.add_url(request)?;
        warnings.add_path_template(request)?;
        warnings.add_path_parameters(request, path_template_of(value))?;
        warnings.add_negative(request, "headers", "header")?;
        warnings.add_negative(request, "queryParameters", "query parameter")?;
        warnings.add_negative(request, "cookies", "cookie")?;
        warnings.add_placeholder(request)?;
    }
    if let Some(response) = value.get("response") {
        warnings.add_status_message(response)?;
        warnings.add_body(response)?;
        warnings.add_json_body(response)?;
        warnings.add_headers(response)?;
        warnings.add_templates(response, path_template_of(value))?;
    }
    let Warnings {
        alloc: _alloc,
        sentences,
    } = warnings;
    Ok(sentences)
}

#[derive(Drop)]
struct Warnings {
    alloc: Global,
    sentences: Vec<String>,
}

impl Warnings {
    /// A sentence of these texts.
    fn add(&mut self, texts: &[&str]) -> Result<(), AllocError> {
        self.sentences.push(joined(self.alloc, texts)?)?;
        Ok(())
    }

    /// Fields at the top that are ignored, and that WireMock doesn't write: they are probably misspelt.
    fn add_ignored(&mut self, value: &Value) -> Result<(), AllocError> {
        let Some(members) = value.as_object() else {
            return Ok(());
        };
        for (name, _member) in members.iter() {
            if !is_known(name.as_str(), members) {
                let quoted = quoted(self.alloc, name.as_str())?;
                let texts = [
                    "the field ",
                    quoted.as_str(),
                    " is ignored: ",
                    belonging(name.as_str(), members),
                    effect_of(members),
                ];
                self.add(texts.as_slice())?;
            }
        }
        Ok(())
    }

    /// A state of no scenario.
    fn add_lonely(&mut self, value: &Value, name: &str) -> Result<(), AllocError> {
        if value.get(name).is_none() || value.get("scenarioName").is_some() {
            return Ok(());
        }
        let effect = "` has no effect without `scenarioName`";
        self.add(["the field `", name, effect].as_slice())
    }

    /// A method with a small letter, or WireMock's word for two: clients send methods in capitals, and one is compared
    /// as it stands.
    fn add_method(&mut self, request: &Value) -> Result<(), AllocError> {
        let Some(method) = text_at(request, "method") else {
            return Ok(());
        };
        let Some(reason) = reason_unsent(method) else {
            return Ok(());
        };
        let method = quoted(self.alloc, method)?;
        self.add(["the `method` ", method.as_str(), reason].as_slice())
    }

    /// URLs that no request has: that of a request begins with a slash, and its path has no question mark. And those by
    /// which a server matches none.
    fn add_url(&mut self, request: &Value) -> Result<(), AllocError> {
        for name in ["url", "urlPath", "urlPathTemplate"] {
            if let Some(text) = text_at(request, name) {
                if let Some(reason) = reason_unserved(text) {
                    self.add_unserved(name, text, reason)?;
                } else if let Some(reason) = reason_unmatched(name, text) {
                    self.add_unmatched(name, text, reason)?;
                }
            }
        }
        Ok(())
    }

    fn add_unmatched(&mut self, name: &str, text: &str, reason: &str) -> Result<(), AllocError> {
        let text = quoted(self.alloc, text)?;
        let texts = [
            "no request matches the `",
            name,
            "` ",
            text.as_str(),
            ": ",
            reason,
        ];
        self.add(texts.as_slice())
    }

    fn add_unserved(&mut self, name: &str, text: &str, reason: &str) -> Result<(), AllocError> {
        let text = quoted(self.alloc, text)?;
        let texts = [
            "a server matches no request by the `",
            name,
            "` ",
            text.as_str(),
            ": ",
            reason,
        ];
        self.add(texts.as_slice())
    }

    /// Segments of a path template that look like more than a text, and are none but a text.
    fn add_path_template(&mut self, request: &Value) -> Result<(), AllocError> {
        let Some(template) = text_at(request, "urlPathTemplate") else {
            return Ok(());
        };
        // It is refused.
        if template.contains('?') {
            return Ok(());
        }
        for segment in template.split('/') {
            if looks_bound(segment) && !is_bound(self.alloc, segment)? {
                let segment = quoted(self.alloc, segment)?;
                let reason =
                    " of `urlPathTemplate` is compared as it stands: only a whole segment {name} takes any text";
                self.add(["the segment ", segment.as_str(), reason].as_slice())?;
            }
        }
        Ok(())
    }

    /// Path parameters that no segment of the path template is bound to.
    fn add_path_parameters(
        &mut self,
        request: &Value,
        template: Option<&str>,
    ) -> Result<(), AllocError> {
        let Some(members) = object_at(request, "pathParameters") else {
            return Ok(());
        };
        // Without a template the field is refused.
        if template.is_none() {
            return Ok(());
        }
        for (name, _matcher) in members.iter() {
            if !binds(template, name.as_str()) {
                let name = quoted(self.alloc, name.as_str())?;
                let reason = " has no value: `urlPathTemplate` binds no segment to it";
                self.add(["the path parameter ", name.as_str(), reason].as_slice())?;
            }
        }
        Ok(())
    }

    /// Matchers that a request without such a value doesn't meet, and that WireMock takes as met by one.
    fn add_negative(&mut self, request: &Value, field: &str, what: &str) -> Result<(), AllocError> {
        let Some(members) = object_at(request, field) else {
            return Ok(());
        };
        for (name, matcher) in members.iter() {
            if let Some(word) = negative_word(matcher) {
                self.add_not_met(what, name.as_str(), word)?;
            }
        }
        Ok(())
    }

    fn add_not_met(&mut self, what: &str, name: &str, word: &str) -> Result<(), AllocError> {
        let name = quoted(self.alloc, name)?;
        let texts = [
            "a request without the ",
            what,
            " ",
            name.as_str(),
            " doesn't meet its `",
            word,
            "`",
        ];
        self.add(texts.as_slice())
    }

    /// What JsonUnit has in place of a value, and is compared as a text.
    fn add_placeholder(&mut self, request: &Value) -> Result<(), AllocError> {
        let Some(items) = list_at(request, "bodyPatterns") else {
            return Ok(());
        };
        for item in items {
            if has_placeholder(self.alloc, item)? {
                let warning =
                    "`${json-unit..}` in `equalToJson` is compared as it stands: it is no placeholder";
                self.add([warning].as_slice())?;
            }
        }
        Ok(())
    }

    /// The reason phrase of a response is that of its status.
    fn add_status_message(&mut self, response: &Value) -> Result<(), AllocError> {
        if response.get("statusMessage").is_none() {
            return Ok(());
        }
        self.add(["`statusMessage` is ignored: the reason phrase is that of the status"].as_slice())
    }

    /// Templates with names that find nothing, or that may take too much for every request.
    fn add_templates(
        &mut self,
        response: &Value,
        path_template: Option<&str>,
    ) -> Result<(), AllocError> {
        if !is_templated(response) {
            return Ok(());
        }
        add_unknown_names(self.alloc, response, path_template, &mut self.sentences)?;
        if let Some(warning) = always_over(self.alloc, response)? {
            self.sentences.push(warning)?;
        }
        Ok(())
    }

    /// A text with tags that is no template.
    fn add_body(&mut self, response: &Value) -> Result<(), AllocError> {
        let Some(body) = text_at(response, "body") else {
            return Ok(());
        };
        if is_templated(response) || !body.contains("{{") {
            return Ok(());
        }
        self.add(["`body`", IS_NO_TEMPLATE].as_slice())
    }

    /// Headers with tags that are no templates.
    fn add_headers(&mut self, response: &Value) -> Result<(), AllocError> {
        let Some(members) = object_at(response, "headers") else {
            return Ok(());
        };
        if is_templated(response) {
            return Ok(());
        }
        for (name, member) in members.iter() {
            if member.to_string(self.alloc)?.as_str().contains("{{") {
                let name = quoted(self.alloc, name.as_str())?;
                self.add(["the header ", name.as_str(), IS_NO_TEMPLATE].as_slice())?;
            }
        }
        Ok(())
    }

    /// A JSON body is sent as it is, also beside `response-template`.
    fn add_json_body(&mut self, response: &Value) -> Result<(), AllocError> {
        let Some(body) = response.get("jsonBody") else {
            return Ok(());
        };
        if !is_templated(response) {
            return Ok(());
        }
        let text = body.to_string(self.alloc)?;
        if !text.as_str().contains("{{") {
            return Ok(());
        }
        let warning =
            "`jsonBody` is no template, its {{ is sent as it is: write the JSON as the text of `body`";
        self.add([warning].as_slice())
    }
}

/// Why no client sends the method, where none does.
fn reason_unsent(method: &str) -> Option<&'static str> {
    let has_small_letter = method
        .as_bytes()
        .iter()
        .any(|byte| byte.is_ascii_lowercase());
    if has_small_letter {
        Some(" is compared as it stands, and clients send methods in capitals")
    } else if method == "GET_OR_HEAD" {
        Some(" is compared as it stands: the one special method is `ANY`")
    } else {
        None
    }
}

/// Why no request has the URL or the path, if none has. What a path template has to be is judged where it is refused.
fn reason_unmatched(name: &str, text: &str) -> Option<&'static str> {
    if name != "urlPathTemplate" && !text.starts_with("/") {
        Some("it doesn't begin with a slash")
    } else if name == "urlPath" && text.contains("?") {
        Some("a path has no query; use `url`, or `queryParameters`")
    } else {
        None
    }
}

/// Why a server matches no request by the URL, if none: it reads `#` and what follows it off a target, and refuses one
/// with a space.
fn reason_unserved(text: &str) -> Option<&'static str> {
    if is_below_admin(text) {
        Some("/__admin and what is below it are its own calls")
    } else if text.contains(' ') || text.contains('<') || text.contains('>') {
        Some(
            "clients send a space, < and > as %20, %3C and %3E, and these are compared as they are sent",
        )
    } else if text.contains('#') {
        Some("a # and what follows it are dropped from what a client asks for")
    } else {
        None
    }
}

/// Whether requests with such a URL are admin calls, known or not.
fn is_below_admin(url: &str) -> bool {
    match url.strip_prefix("/__admin") {
        Some(after) => after.is_empty() || after.starts_with('/') || after.starts_with('?'),
        None => false,
    }
}

/// The text of the mapping's path template, if it has one.
fn path_template_of(value: &Value) -> Option<&str> {
    text_at(value.get("request")?, "urlPathTemplate")
}

/// Whether the field is read, or written by WireMock.
fn is_known(name: &str, members: &Map<String, Value>) -> bool {
    match field_of(Part::Mapping, name, members) {
        Field::Known(_) => true,
        _ => is_written_by_wiremock(name),
    }
}

fn is_written_by_wiremock(name: &str) -> bool {
    matches!(
        name,
        "uuid" | "persistent" | "insertionIndex" | "metadata" | "comments" | "$schema"
    )
}

/// What comes of a field that is ignored.
fn effect_of(members: &Map<String, Value>) -> &'static str {
    if !members.contains_key("request") {
        "without `request` the mapping answers every request"
    } else if !members.contains_key("response") {
        "without `response` it answers 200 with no body"
    } else {
        "it has no effect"
    }
}

/// Where a field belongs that is meant for another object.
fn belonging(name: &str, members: &Map<String, Value>) -> &'static str {
    if name == "mappings" {
        return "one mapping is wanted here, and not a list of them; ";
    }
    let is_requests = is_field(Part::Request, name, members);
    let is_responses = is_field(Part::Response, name, members);
    match (is_requests, is_responses) {
        (true, false) => "it belongs into `request`; ",
        (false, true) => "it belongs into `response`; ",
        _ => "",
    }
}

fn is_field(part: Part, name: &str, members: &Map<String, Value>) -> bool {
    !matches!(field_of(part, name, members), Field::Unsupported(_))
}

pub(crate) fn text_at<'a>(value: &'a Value, name: &str) -> Option<&'a str> {
    value.get(name)?.as_str()
}

fn object_at<'a>(value: &'a Value, name: &str) -> Option<&'a Map<String, Value>> {
    value.get(name)?.as_object()
}

fn list_at<'a>(value: &'a Value, name: &str) -> Option<&'a Vec<Value>> {
    value.get(name)?.as_array()
}

fn looks_bound(segment: &str) -> bool {
    segment.contains('{') || segment.contains('}') || segment == "**"
}

/// Whether the segment takes any text.
fn is_bound(alloc: Global, segment: &str) -> Result<bool, AllocError> {
    let path = joined(alloc, ["/", segment].as_slice())?;
    match PathTemplate::parse(alloc, path.as_str()) {
        Ok(template) => Ok(template.matches("/any")),
        Err(PathTemplateError::BadUrl) => Ok(false),
        Err(PathTemplateError::OutOfMemory) => Err(AllocError),
    }
}

fn negative_word(matcher: &Value) -> Option<&'static str> {
    if matcher.get("doesNotContain").is_some() {
        Some("doesNotContain")
    } else if matcher.get("doesNotMatch").is_some() {
        Some("doesNotMatch")
    } else {
        None
    }
}

fn has_placeholder(alloc: Global, pattern: &Value) -> Result<bool, AllocError> {
    let Some(expected) = pattern.get("equalToJson") else {
        return Ok(false);
    };
    let text = expected.to_string(alloc)?;
    Ok(text.as_str().contains("${json-unit."))
}

fn is_templated(response: &Value) -> bool {
    matches!(list_at(response, "transformers"), Some(items) if !items.is_empty())
}
