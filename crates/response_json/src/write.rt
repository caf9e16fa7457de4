// From a response to its JSON value.
ghost use Rattle.std.specs.Prelude.{◌≡◌, IfOk, OnOk, codes, map};
ghost use Rattle.base64.specs.Engines.{standard};
ghost use Rattle.base64.specs.GeneralPurpose.{encode_of};
ghost use Rattle.json_reading.specs.Written.{with_field};
ghost use Rattle.response_json.specs.Writing.{json_of_response, with_content, with_body, with_lines};
ghost use Rattle.response_json.specs.Writing.{with_text, json_of_headers, json_of_texts, json_of_text, texts_of};
ghost use Rattle.response_json.specs.Writing.{template_transformers, text_line, text_body};
ghost use Rattle.serde_json.specs.Data.{put, string, object, no_members};
ghost use Rattle.serde_json.specs.View.{view, members_view};

use base64::engine::general_purpose::STANDARD;
use json_reading::json_text::JsonText;
use mapping_model::header_lines::HeaderLine;
use mapping_model::response_spec::{Body, Content, ResponseSpec};
use mapping_model::template_text::TemplateText;
use plain_text::octets::Octets;
use plain_text::text::Text;
use serde_json::{Map, Value};
use std::alloc::{AllocError, Global};

/// The object of a response. The text of a JSON body is read again.
#[tactic(auto, unfolding(crate::specs::Writing::json_of_response))]
pub fn write_response(alloc: Global, response: &ResponseSpec) -> Result<Value, AllocError>
    ensures { IfOk result (λ value. view value ≡ json_of_response response.now) }
{
    let mut members = Map::new(alloc);
    let status = Value::from(response.status.code());
    serde_json::put(&mut members, alloc, "status", status)?;
    put_content(alloc, &mut members, &response.content)?;
    Ok(Value::Object(members))
}

fn put_content(
    alloc: Global,
    members: &mut Map<String, Value>,
    content: &Content,
) -> Result<(), AllocError>
    ensures { OnOk result (members_view members.new.entries
        ≡ with_content content.now (members_view members.old.entries)) }
{
    match content {
        Content::Plain { headers, body } => {
            put_headers(alloc, members, headers.as_slice())?;
            put_body(alloc, members, body)
        }
        Content::Templated { headers, body } => {
            let lines = source_lines(alloc, headers.as_slice())?;
            put_headers(alloc, members, lines.as_slice())?;
            put_source(alloc, members, body)?;
            let transformers = template_transformers(alloc)?;
            serde_json::put(members, alloc, "transformers", transformers)
        }
    }
}

fn template_transformers(alloc: Global) -> Result<Value, AllocError>
    ensures { IfOk result (λ value. view value ≡ template_transformers) }
{
    let mut names = Vec::new(alloc);
    names.push(Value::try_from_str(alloc, "response-template")?)?;
    Ok(Value::Array(names))
}

/// The lines with the texts of their templates.
fn source_lines(
    alloc: Global,
    lines: &[HeaderLine<TemplateText>],
) -> Result<Vec<HeaderLine<Text>>, AllocError>
    ensures { IfOk result (λ sources. sources.items ≡ map text_line lines.now) }
{
    let mut sources = Vec::with_capacity(alloc, lines.len())?;
    for line in lines {
        sources.push(source_line(alloc, line)?)?;
    }
    Ok(sources)
}

fn source_line(
    alloc: Global,
    line: &HeaderLine<TemplateText>,
) -> Result<HeaderLine<Text>, AllocError>
    ensures { IfOk result (λ source. source ≡ text_line line.now) }
{
    Ok(HeaderLine {
        name: line.name.clone()?,
        value: Text::from(String::from_str(alloc, line.value.source())?),
    })
}

fn put_headers(
    alloc: Global,
    members: &mut Map<String, Value>,
    lines: &[HeaderLine<Text>],
) -> Result<(), AllocError>
    ensures { OnOk result (members_view members.new.entries
        ≡ with_field (codes "headers") (json_of_headers lines.now) (members_view members.old.entries)) }
{
    if lines.is_empty() {
        return Ok(());
    }
    serde_json::put(members, alloc, "headers", write_lines(alloc, lines)?)
}

fn write_lines(alloc: Global, lines: &[HeaderLine<Text>]) -> Result<Value, AllocError>
    ensures { IfOk result (λ value. view value ≡ object (with_lines lines.now lines.now no_members)) }
{
    let mut members = Map::new(alloc);
    for line in lines {
        let texts = json_of_texts(texts_of(alloc, line.name.as_str(), lines)?)?;
        serde_json::put(&mut members, alloc, line.name.as_str(), texts)?;
    }
    Ok(Value::Object(members))
}

fn texts_of(alloc: Global, name: &str, lines: &[HeaderLine<Text>]) -> Result<Vec<Value>, AllocError>
    ensures { IfOk result (λ texts. map view texts.items ≡ texts_of name.now lines.now) }
{
    let mut texts = Vec::new(alloc);
    for line in lines {
        if line.name.as_str() == name {
            texts.push(Value::try_from_str(alloc, line.value.as_str())?)?;
        }
    }
    Ok(texts)
}

#[tactic(auto, using(crate::proofs::Texts::several))]
fn json_of_texts(texts: Vec<Value>) -> Result<Value, AllocError>
    ensures { IfOk result (λ value. view value ≡ json_of_texts (map view texts.items)) }
{
    if let [text] = texts.as_slice() {
        return text.clone();
    }
    Ok(Value::Array(texts))
}

fn put_body(
    alloc: Global,
    members: &mut Map<String, Value>,
    body: &Body<Text>,
) -> Result<(), AllocError>
    ensures { OnOk result (members_view members.new.entries
        ≡ with_body body.now (members_view members.old.entries)) }
{
    match body {
        Body::Empty => Ok(()),
        Body::Text(text) => put_text_body(alloc, members, text.as_str()),
        Body::Json(text) => put_json(alloc, members, text),
        Body::Base64(bytes) => put_base64(alloc, members, bytes),
    }
}

/// The same of a body that is a template.
fn put_source(
    alloc: Global,
    members: &mut Map<String, Value>,
    body: &Body<TemplateText>,
) -> Result<(), AllocError>
    ensures { OnOk result (members_view members.new.entries
        ≡ with_body (text_body body.now) (members_view members.old.entries)) }
{
    match body {
        Body::Empty => Ok(()),
        Body::Text(template) => put_text_body(alloc, members, template.source()),
        Body::Json(text) => put_json(alloc, members, text),
        Body::Base64(bytes) => put_base64(alloc, members, bytes),
    }
}

/// An empty text is left out: it reads as no body.
fn put_text_body(
    alloc: Global,
    members: &mut Map<String, Value>,
    text: &str,
) -> Result<(), AllocError>
    ensures { OnOk result (members_view members.new.entries ≡ with_text text.now (members_view members.old.entries)) }
{
    if text.is_empty() {
        return Ok(());
    }
    serde_json::put(members, alloc, "body", Value::try_from_str(alloc, text)?)
}

fn put_json(
    alloc: Global,
    members: &mut Map<String, Value>,
    text: &JsonText,
) -> Result<(), AllocError>
    ensures { OnOk result (members_view members.new.entries
        ≡ put (codes "jsonBody") (json_of_text text.now) (members_view members.old.entries)) }
{
    serde_json::put(
        members,
        alloc,
        "jsonBody",
        json_of_text(alloc, text.as_str())?,
    )
}

fn put_base64(
    alloc: Global,
    members: &mut Map<String, Value>,
    bytes: &Octets,
) -> Result<(), AllocError>
    ensures { OnOk result (members_view members.new.entries
        ≡ put (codes "base64Body") (string (encode_of standard bytes.now)) (members_view members.old.entries)) }
{
    let text = STANDARD.encode(alloc, bytes.as_slice())?;
    serde_json::put(members, alloc, "base64Body", Value::String(text))
}

/// The value that a JSON text is; any other text is a text.
fn json_of_text(alloc: Global, text: &str) -> Result<Value, AllocError>
    ensures { IfOk result (λ value. view value ≡ json_of_text text.now) }
{
    match Value::from_str(alloc, text) {
        Ok(value) => Ok(value),
        Err(error) => if error.is_memory() {
            Err(AllocError)
        } else {
            Value::try_from_str(alloc, text)
        },
    }
}
