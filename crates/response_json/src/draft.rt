// A response whose templates aren't compiled yet.
ghost use Rattle.std.specs.Prelude.{◌≡◌, ◌∷◌, ◌++◌, [], All, IfOk, IfErr, OnOk};
ghost use Rattle.mapping_model.specs.declared.response_spec.Content.{Content};
ghost use Rattle.response_json.specs.Draft.{response_of, no_response, templates_of, values_of};
ghost use Rattle.response_json.specs.Draft.{body_templates, line_with, lines_with, body_with, IsFirstError};
ghost use Rattle.template_tree.specs.Source.{with_escape};
ghost use Rattle.template_machine.specs.Program.{IsProgramText};
ghost use Rattle.template_machine.specs.Errors.{IsErrorOf};

use mapping_model::header_lines::{HeaderLine, HeaderLines};
use mapping_model::response_spec::{Body, Content, ResponseSpec};
use mapping_model::status::Status;
use mapping_model::template_text::TemplateText;
use plain_text::text::Text;
use std::alloc::{AllocError, Global};
use template_machine::error::ProgramError;
use template_tree::escape::Escape;

/// A response as it is read: its templates, if it has any, are texts still.
#[derive(Drop)]
pub struct ResponseDraft {
    pub status: Status,
    pub headers: HeaderLines<Text>,
    pub body: Body<Text>,
    /// Whether the values of the headers and a `body` are templates.
    pub is_templated: bool,
}

impl ResponseDraft {
    /// The response of a mapping that has none: 200, without headers and body. Takes no memory.
    pub fn none(alloc: Global) -> ResponseDraft
        ensures { result ≡ no_response }
    {
        ResponseDraft {
            status: Status::ok(),
            headers: no_headers(alloc),
            body: Body::Empty,
            is_templated: false,
        }
    }

    /// The response, with its templates, whose prints are escaped so, compiled in the order of the header lines, and
    /// then the body. The error is that of the first template that is none.
    pub fn compile(self, alloc: Global, escape: Escape) -> Result<ResponseSpec, ProgramError>
        ensures value { IfOk result (λ response. response ≡ response_of escape self) }
        ensures ok { OnOk result (All IsProgramText (templates_of escape self)) }
        ensures err { IfErr result (IsFirstError (templates_of escape self)) }
    {
        let ResponseDraft {
            status,
            headers,
            body,
            is_templated,
        } = self;
        let content = if is_templated {
            compile_content(alloc, &headers, body, escape)?
        } else {
            Content::Plain { headers, body }
        };
        Ok(ResponseSpec { status, content })
    }
}

/// No header lines. Takes no memory.
pub(crate) fn no_headers(alloc: Global) -> HeaderLines<Text>
    ensures { result ≡ [] }
{
    match HeaderLines::new(Vec::new(alloc)) {
        Some(headers) => headers,
        None => unreachable!(),
    }
}

fn compile_content(
    alloc: Global,
    headers: &HeaderLines<Text>,
    body: Body<Text>,
    escape: Escape,
) -> Result<Content, ProgramError>
    ensures value { IfOk result (λ content.
        content ≡ Content.Templated (lines_with escape headers.now) (body_with escape body)) }
    ensures ok { OnOk result (All IsProgramText
        (values_of (lines_with escape headers.now) ++ body_templates (body_with escape body))) }
    ensures err { IfErr result (IsFirstError
        (values_of (lines_with escape headers.now) ++ body_templates (body_with escape body))) }
{
    Ok(Content::Templated {
        headers: compile_headers(alloc, headers, escape)?,
        body: compile_body(alloc, body, escape)?,
    })
}

fn compile_headers(
    alloc: Global,
    headers: &HeaderLines<Text>,
    escape: Escape,
) -> Result<HeaderLines<TemplateText>, ProgramError>
    ensures value { IfOk result (λ compiled. compiled ≡ lines_with escape headers.now) }
    ensures ok { OnOk result (All IsProgramText (values_of (lines_with escape headers.now))) }
    ensures err { IfErr result (IsFirstError (values_of (lines_with escape headers.now))) }
{
    match HeaderLines::new(compile_lines(alloc, headers.as_slice(), escape)?) {
        Some(compiled) => Ok(compiled),
        None => unreachable!(),
    }
}

fn compile_lines(
    alloc: Global,
    lines: &[HeaderLine<Text>],
    escape: Escape,
) -> Result<Vec<HeaderLine<TemplateText>>, ProgramError>
    ensures value { IfOk result (λ compiled. compiled.items ≡ lines_with escape lines.now) }
    ensures ok { OnOk result (All IsProgramText (values_of (lines_with escape lines.now))) }
    ensures err { IfErr result (IsFirstError (values_of (lines_with escape lines.now))) }
{
    let mut compiled = Vec::with_capacity(alloc, lines.len())?;
    for line in lines {
        push(&mut compiled, compile_line(alloc, line, escape)?)?;
    }
    Ok(compiled)
}

fn push(
    compiled: &mut Vec<HeaderLine<TemplateText>>,
    line: HeaderLine<TemplateText>,
) -> Result<(), AllocError>
    ensures { OnOk result (compiled.new.items ≡ compiled.old.items ++ line ∷ []) }
{
    Ok(compiled.push(line)?)
}

fn compile_line(
    alloc: Global,
    line: &HeaderLine<Text>,
    escape: Escape,
) -> Result<HeaderLine<TemplateText>, ProgramError>
    ensures value { IfOk result (λ compiled. compiled ≡ line_with escape line.now) }
    ensures ok { OnOk result (IsProgramText (with_escape escape line.now.value)) }
    ensures err { IfErr result (IsErrorOf (with_escape escape line.now.value)) }
{
    Ok(HeaderLine {
        value: TemplateText::from_text_with(alloc, line.value.as_str(), escape)?,
        name: line.name.clone()?,
    })
}

fn compile_body(
    alloc: Global,
    body: Body<Text>,
    escape: Escape,
) -> Result<Body<TemplateText>, ProgramError>
    ensures value { IfOk result (λ compiled. compiled ≡ body_with escape body) }
    ensures ok { OnOk result (All IsProgramText (body_templates (body_with escape body))) }
    ensures err { IfErr result (IsFirstError (body_templates (body_with escape body))) }
{
    Ok(match body {
        Body::Empty => Body::Empty,
        Body::Text(text) => {
            Body::Text(TemplateText::from_text_with(alloc, text.as_str(), escape)?)
        }
        Body::Json(text) => Body::Json(text),
        Body::Base64(bytes) => Body::Base64(bytes),
    })
}
