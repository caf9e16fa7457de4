// What the templates of one response may take.
ghost use Rattle.std.specs.Prelude.{◌≡◌, ◌↔◌, ◌+◌, ◌<◌, ◌∷◌, List, IfNone, IfSome, IsNone, IsTrue};
ghost use Rattle.stub_response.specs.Limits.{KeepTo};
ghost use Rattle.template_tree.specs.Source.{Source};
ghost use Rattle.stub_response.specs.Response.{templates_of};

use mapping_model::header_lines::HeaderLine;
use mapping_model::response_spec::Body;
use mapping_model::template_text::TemplateText;

/// The steps that the templates of one response may take together, if a server says no other number.
pub const STEP_LIMIT: u64 = 67_108_864;

/// The bytes that the templates of one response may write together, if a server says no other number.
pub const BYTE_LIMIT: u64 = 16_777_216;

/// The steps and the bytes that the templates of one response may take together. Compared with them are the budgets of
/// their programs at the size of the request's data, before a program is run.
#[derive(Clone, Copy, Debug)]
pub struct Limits {
    pub steps: u64,
    pub bytes: u64,
}

impl Limits {
    pub fn usual() -> Limits
        ensures { result ≡ record { steps = STEP_LIMIT; bytes = BYTE_LIMIT } }
    {
        Limits {
            steps: STEP_LIMIT,
            bytes: BYTE_LIMIT,
        }
    }
}

// What a template leaves of these steps and bytes over data of that size; none where it may take more.
fn rest_of(steps: u64, bytes: u64, template: &TemplateText, size: u64) -> Option<Limits>
    ensures none { IfNone result ((more : List Source) →
        ¬ (KeepTo (record { steps = steps; bytes = bytes }) (template.now ∷ more) size)) }
    ensures some { IfSome result (λ rest. (more : List Source) →
        KeepTo rest more size ↔ KeepTo (record { steps = steps; bytes = bytes }) (template.now ∷ more) size) }
{
    let (steps_taken, bytes_taken) = template.program().budget().at(size)?;
    Some(Limits {
        steps: left(steps, steps_taken)?,
        bytes: left(bytes, bytes_taken)?,
    })
}

fn left(limit: u64, taken: u128) -> Option<u64>
    ensures none { IsNone result ↔ (limit < taken) }
    ensures some { IfSome result (λ rest. limit ≡ taken + rest) }
{
    limit.checked_sub(u64::try_from(taken).ok()?)
}

/// Whether the templates of a response keep to the limits over data of that size.
pub(crate) fn keep_to(
    limits: Limits,
    headers: &[HeaderLine<TemplateText>],
    body: &Body<TemplateText>,
    size: u64,
) -> bool
    ensures { IsTrue result ↔ KeepTo limits (templates_of headers.now body.now) size }
{
    let mut rest = limits;
    for header in headers {
        match rest_of(rest.steps, rest.bytes, &header.value, size) {
            Some(less) => rest = less,
            None => return false,
        }
    }
    match body {
        Body::Text(template) => rest_of(rest.steps, rest.bytes, template, size).is_some(),
        Body::Empty | Body::Json(_) | Body::Base64(_) => true,
    }
}
