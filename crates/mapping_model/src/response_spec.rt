// The response of a mapping.
ghost use Rattle.std.specs.Prelude.{◌≡◌, ◌↔◌, IsTrue};

use crate::header_lines::HeaderLines;
use crate::status::Status;
use crate::template_text::TemplateText;
use json_reading::json_text::JsonText;
use plain_text::octets::Octets;
use plain_text::plain::Same;
use plain_text::text::Text;
use std::alloc::AllocError;

/// The body of a response, in the form in which it was given. Only a `body` may be a template.
#[derive(Clone, Drop)]
pub enum Body<V> {
    /// No body. An empty `body` is none: `of_text` gives it so, and whoever makes a template's body has to.
    Empty,
    /// `body`.
    Text(V),
    /// `jsonBody`: its compact text.
    Json(JsonText),
    /// `base64Body`: the bytes.
    Base64(Octets),
}

impl Body<Text> {
    ghost use Rattle.mapping_model.specs.Body.{text_body};

    /// The body that a text gives. Takes no memory.
    pub fn of_text(text: Text) -> Body<Text>
        ensures { result ≡ text_body text }
    {
        if text.as_str().is_empty() {
            Body::Empty
        } else {
            Body::Text(text)
        }
    }
}

impl<V: Same> Same for Body<V> {
    fn same(&self, other: &Body<V>) -> bool {
        match (self, other) {
            (Body::Empty, Body::Empty) => true,
            (Body::Text(a), Body::Text(b)) => a.same(b),
            (Body::Json(a), Body::Json(b)) => a.same(b),
            (Body::Base64(a), Body::Base64(b)) => a.same(b),
            _ => false,
        }
    }
}

/// The headers and the body of a response: texts, or templates where the response has the transformer
/// `response-template`.
#[derive(Clone, Drop)]
pub enum Content {
    Plain {
        headers: HeaderLines<Text>,
        body: Body<Text>,
    },
    Templated {
        headers: HeaderLines<TemplateText>,
        body: Body<TemplateText>,
    },
}

impl Content {
    pub fn same(&self, other: &Content) -> bool
        ensures { IsTrue result ↔ (self.now ≡ other.now) }
    {
        match (self, other) {
            (
                Content::Plain {
                    headers: a,
                    body: a_body,
                },
                Content::Plain {
                    headers: b,
                    body: b_body,
                },
            ) => a.same(b) && a_body.same(b_body),
            (
                Content::Templated {
                    headers: a,
                    body: a_body,
                },
                Content::Templated {
                    headers: b,
                    body: b_body,
                },
            ) => a.same(b) && a_body.same(b_body),
            _ => false,
        }
    }
}

/// The response of a mapping.
#[derive(Drop)]
pub struct ResponseSpec {
    pub status: Status,
    pub content: Content,
}

// Written out, so that a caller's proof sees one fact and not a copy of each part.
impl Clone for ResponseSpec {
    ghost use Rattle.std.specs.Prelude.{◌≡◌};

    ghost is_clone = { λ original copy. copy ≡ original };

    fn clone(&self) -> Result<ResponseSpec, AllocError> {
        Ok(ResponseSpec {
            status: self.status,
            content: self.content.clone()?,
        })
    }
}

impl ResponseSpec {
    pub fn same(&self, other: &ResponseSpec) -> bool
        ensures { IsTrue result ↔ (self.now ≡ other.now) }
    {
        self.status.same(other.status) && self.content.same(&other.content)
    }
}
