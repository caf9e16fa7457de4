// Why the templates of a response were not run: what they may take, and what is too much.
ghost use Rattle.std.specs.Prelude.{IfSome};
ghost use Rattle.request_log.specs.Taken.{MayTake, MayTakeMore};
ghost use Rattle.stub_response.specs.Response.{templates_of};

use data_tree::request_data::{DataError, SIZE_LIMIT};
use itoa::Buffer;
use mapping_model::header_lines::HeaderLine;
use mapping_model::mapping_spec::MappingSpec;
use mapping_model::response_spec::{Body, Content};
use mapping_model::template_text::TemplateText;
use mapping_model::url_spec::UrlSpec;
use mock_request::snapshot::Snapshot;
use path_template::path_template::PathTemplate;
use request_data::tree::request_data;
use std::alloc::{AllocError, Global};
use stub_response::limits::Limits;

/// The steps and the bytes that templates may take together over data of one size: their programs' budgets, added up.
#[derive(Clone, Copy)]
struct Taken {
    steps: u128,
    bytes: u128,
}

/// A line on what is too much, where the templates of the mapping's response may take more than the limits over the
/// request's data, or that is too large; empty where it isn't so.
pub(crate) fn over_budget_line(
    alloc: Global,
    mapping: &MappingSpec,
    request: &Snapshot,
    limits: Limits,
) -> Result<String, AllocError> {
    let Content::Templated { headers, body } = &mapping.response.content else {
        return Ok(String::new(alloc));
    };
    let template = path_template(alloc, &mapping.request.url);
    match request_data(alloc, request, template.as_ref()) {
        Ok(data) => {
            let size = data.size();
            let taken = taken_by(headers.as_slice(), body, size);
            taken_line(alloc, taken, size, limits)
        }
        Err(DataError::TooLarge(data)) => data_line(alloc, data.size()),
        Err(DataError::OutOfMemory) => Err(AllocError),
    }
}

// The template of a URL matcher that is one.
fn path_template(alloc: Global, url: &UrlSpec) -> Option<PathTemplate> {
    match url {
        UrlSpec::UrlPathTemplate { template, .. } => {
            PathTemplate::parse(alloc, template.as_str()).ok()
        }
        _ => None,
    }
}

// What the templates of a response may take together over data of that size; none where that exceeds 128 bits.
fn taken_by(
    headers: &[HeaderLine<TemplateText>],
    body: &Body<TemplateText>,
    size: u64,
) -> Option<Taken>
    ensures { IfSome result
        (λ taken. MayTake (templates_of headers.now body.now) size taken.steps taken.bytes) }
{
    let mut taken = Taken { steps: 0, bytes: 0 };
    for header in headers {
        taken = with_template(taken, &header.value, size)?;
    }
    match body {
        Body::Text(template) => with_template(taken, template, size),
        Body::Empty | Body::Json(_) | Body::Base64(_) => Some(taken),
    }
}

// With the budget of one template more, at that size.
fn with_template(taken: Taken, template: &TemplateText, size: u64) -> Option<Taken>
    ensures { IfSome result
        (λ both. MayTakeMore template.now size taken.steps taken.bytes both.steps both.bytes) }
{
    let (steps, bytes) = template.program().budget().at(size)?;
    Some(Taken {
        steps: taken.steps.checked_add(steps)?,
        bytes: taken.bytes.checked_add(bytes)?,
    })
}

// As `  over budget: over data of size 350 the templates may take 86118453 steps (limit 67108864)`.
fn taken_line(
    alloc: Global,
    taken: Option<Taken>,
    size: u64,
    limits: Limits,
) -> Result<String, AllocError> {
    let mut line = String::from_str(alloc, "  over budget: over data of size ")?;
    push_number(&mut line, size as u128)?;
    line.push_str(" the templates may ")?;
    let Some(taken) = taken else {
        line.push_str("take more steps or write more bytes than fit 128 bits\n")?;
        return Ok(line);
    };
    let is_long = taken.steps > limits.steps as u128;
    let is_large = taken.bytes > limits.bytes as u128;
    if !is_long && !is_large {
        return Ok(String::new(alloc));
    }
    if is_long {
        push_amount(&mut line, "take ", taken.steps, " steps", limits.steps)?;
    }
    if is_long && is_large {
        line.push_str(" and ")?;
    }
    if is_large {
        push_amount(&mut line, "write ", taken.bytes, " bytes", limits.bytes)?;
    }
    line.push_str("\n")?;
    Ok(line)
}

fn push_amount(
    line: &mut String,
    verb: &str,
    amount: u128,
    unit: &str,
    limit: u64,
) -> Result<(), AllocError> {
    line.push_str(verb)?;
    push_number(line, amount)?;
    line.push_str(unit)?;
    push_limit(line, limit)
}

fn push_limit(line: &mut String, limit: u64) -> Result<(), AllocError> {
    line.push_str(" (limit ")?;
    push_number(line, limit as u128)?;
    line.push_str(")")
}

fn data_line(alloc: Global, size: u64) -> Result<String, AllocError> {
    let mut line = String::from_str(alloc, "  over budget: the request's data has size ")?;
    push_number(&mut line, size as u128)?;
    push_limit(&mut line, SIZE_LIMIT)?;
    line.push_str("\n")?;
    Ok(line)
}

fn push_number(line: &mut String, number: u128) -> Result<(), AllocError> {
    let mut digits = Buffer::new();
    line.push_str(digits.format(number))
}
