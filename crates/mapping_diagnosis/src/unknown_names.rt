// Names in templates that find nothing, whatever the request.
use crate::nearest_name::{is_field, nearest_field, nearest_name};
use crate::shown::{joined, quoted};
use crate::templates::texts_of;
use data_tree::step::Step;
use serde_json::Value;
use std::alloc::{AllocError, Global};
use template_code::code::Code;
use template_code::instr::Instr;
use template_compile::compiler::compile;
use template_compile::error::CompileError;
use template_tree::error::ParseError;
use template_tree::parser::parse;
use template_tree::template::Template;

/// How many names of a mapping are warned of.
const NAME_LIMIT: usize = 10;

/// Warns of the first names of paths, outside of all loops, that aren't `request`, of names after `request` that no
/// field of a request has, of names after `request.path` to which the path template, if there is one, binds no segment,
/// and of names after `request.pathSegments`: what they find is nothing. Each is said once.
pub(crate) fn add_unknown_names(
    alloc: Global,
    response: &Value,
    path_template: Option<&str>,
    warnings: &mut Vec<String>,
) -> Result<(), AllocError> {
    let mut sentences = Vec::new(alloc);
    let texts = texts_of(alloc, response)?;
    for text in texts.as_slice() {
        add_those_of_text(alloc, *text, path_template, &mut sentences)?;
    }
    for sentence in sentences {
        warnings.push(sentence)?;
    }
    Ok(())
}

fn add_those_of_text(
    alloc: Global,
    text: &str,
    path_template: Option<&str>,
    sentences: &mut Vec<String>,
) -> Result<(), AllocError> {
    if !text.contains("{{") {
        return Ok(());
    }
    let Some(code) = code_in_loop(alloc, text)? else {
        return Ok(());
    };
    let found = sentences_of(alloc, &code, path_template)?;
    // A text that closes the loop, or begins its else part, is no template.
    if found.is_empty() || template_of(alloc, text)?.is_none() {
        return Ok(());
    }
    for sentence in found {
        add_sentence(sentence, sentences)?;
    }
    Ok(())
}

/// The code of the template as the body of a loop. Outside of loops a name finds nothing, and the code of a template
/// has no trace of it. In the body of one more loop the same name is looked up in that loop's item, and the code says
/// so. A template that has no room for one more loop gives none.
fn code_in_loop(alloc: Global, text: &str) -> Result<Option<Code>, AllocError> {
    let looped = joined(alloc, ["{{#each request}} ", text, " {{/each}}"].as_slice())?;
    match template_of(alloc, looped.as_str())? {
        Some(template) => code_of(alloc, template),
        None => Ok(None),
    }
}

fn template_of(alloc: Global, text: &str) -> Result<Option<Template>, AllocError> {
    match parse(alloc, text) {
        Ok(template) => Ok(Some(template)),
        Err(ParseError::OutOfMemory) => Err(AllocError),
        Err(ParseError::Template(_error)) => Ok(None),
    }
}

fn code_of(alloc: Global, template: Template) -> Result<Option<Code>, AllocError> {
    match compile(alloc, template) {
        Ok(code) => Ok(Some(code)),
        Err(CompileError::OutOfMemory) => Err(AllocError),
        Err(CompileError::TooLong) => Ok(None),
    }
}

/// What is said of the code's paths, in their order: of those that lead to the item of the outermost loop, and of those
/// that begin at the root.
fn sentences_of(
    alloc: Global,
    code: &Code,
    path_template: Option<&str>,
) -> Result<Vec<String>, AllocError> {
    let mut sentences = Vec::new(alloc);
    // A loop's body follows its `Each`, and ends with its `Next`.
    let mut open = 0usize;
    for instr in code.instrs() {
        match *instr {
            Instr::Each(_) => open = open.saturating_add(1),
            Instr::Next(_) => open = open.saturating_sub(1),
            Instr::Item(depth, path) => {
                if depth.saturating_add(1) == open {
                    add_first_name(alloc, steps_of(code, path), &mut sentences)?;
                }
            }
            Instr::Root(path) => {
                add_name_after_request(alloc, steps_of(code, path), path_template, &mut sentences)?;
            }
            _ => {}
        }
    }
    Ok(sentences)
}

/// The steps of a path of the code.
fn steps_of(code: &Code, path: usize) -> &[Step] {
    match code.paths().get(path) {
        Some(path) => path.steps(),
        None => &[],
    }
}

fn add_first_name(
    alloc: Global,
    steps: &[Step],
    sentences: &mut Vec<String>,
) -> Result<(), AllocError> {
    match steps.first() {
        Some(Step::Name(name)) => {
            // By `this.request`: `request` alone, or after `../`, is the request wherever it stands.
            if name.as_str() == "request" {
                let why = "outside of loops `this` is nothing, and request stands without it";
                return add_sentence(finds_nothing(alloc, name.as_str(), why, None)?, sentences);
            }
            let why = "outside of loops a path begins with request";
            let nearest = nearest_name(alloc, name.as_str())?;
            add_sentence(
                finds_nothing(alloc, name.as_str(), why, nearest)?,
                sentences,
            )
        }
        _ => Ok(()),
    }
}

fn add_name_after_request(
    alloc: Global,
    steps: &[Step],
    path_template: Option<&str>,
    sentences: &mut Vec<String>,
) -> Result<(), AllocError> {
    let [Step::Name(first), Step::Name(field), after @ ..] = steps else {
        return Ok(());
    };
    if first.as_str() != "request" {
        return Ok(());
    }
    if !is_field(field.as_str()) {
        let why = "a request has no such field";
        let nearest = nearest_field(alloc, field.as_str())?;
        return add_sentence(
            finds_nothing(alloc, field.as_str(), why, nearest)?,
            sentences,
        );
    }
    let Some(Step::Name(name)) = after.first() else {
        return Ok(());
    };
    match reason_unbound(field.as_str(), name.as_str(), path_template) {
        Some(why) => add_sentence(finds_nothing(alloc, name.as_str(), why, None)?, sentences),
        None => Ok(()),
    }
}

/// Why a name after these fields of a request finds nothing, if it finds nothing.
fn reason_unbound(field: &str, name: &str, path_template: Option<&str>) -> Option<&'static str> {
    if field == "pathSegments" {
        Some("request.pathSegments is a list, whose segments have numbers")
    } else if field == "path" && !binds(path_template, name) {
        Some("no `urlPathTemplate` of the mapping binds it to a segment of request.path")
    } else {
        None
    }
}

/// Whether the path template binds a segment to the name.
pub(crate) fn binds(path_template: Option<&str>, name: &str) -> bool {
    let Some(template) = path_template else {
        return false;
    };
    if !may_be_bound(name) {
        return false;
    }
    template
        .split('/')
        .any(|segment| bound_name(segment) == Some(name))
}

/// Whether a segment of a path template can be bound to the name.
fn may_be_bound(name: &str) -> bool {
    !name.is_empty()
        && name.as_bytes().iter().all(|byte| byte.is_ascii_alphanumeric()
            || *byte == b'_'
            || *byte == b'-')
}

fn bound_name(segment: &str) -> Option<&str> {
    segment.strip_prefix("{")?.strip_suffix("}")
}

fn finds_nothing(
    alloc: Global,
    name: &str,
    why: &'static str,
    nearest: Option<&'static str>,
) -> Result<String, AllocError> {
    let shown = quoted(alloc, name)?;
    let (before, nearest) = match nearest {
        Some(nearest) => ("; the nearest is ", nearest),
        None => ("", ""),
    };
    let texts = [
        "the name ",
        shown.as_str(),
        " in a template finds nothing: ",
        why,
        before,
        nearest,
    ];
    joined(alloc, texts.as_slice())
}

fn add_sentence(sentence: String, sentences: &mut Vec<String>) -> Result<(), AllocError> {
    let is_known = sentences
        .iter()
        .any(|known| known.as_str() == sentence.as_str());
    if is_known || sentences.len() >= NAME_LIMIT {
        return Ok(());
    }
    sentences.push(sentence)?;
    Ok(())
}
