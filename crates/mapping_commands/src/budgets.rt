//! The budgets of the templates of a response, added up.
ghost use Rattle.std.specs.Prelude.{◌≡◌, ◌≤◌, ◌+◌, ◌++◌, ◌∷◌, [], length, slice_index, IfOk};
ghost use Rattle.mapping_model.specs.declared.header_lines.TheConstants.{HEADER_LIMIT};
ghost use Rattle.mapping_commands.specs.Inner.Totals.{AreTotals, Grows, IsWithin};
ghost use Rattle.response_json.specs.Draft.{values_of, body_templates};
ghost use Rattle.code_rules.specs.Polynomial.{as_printed, plus};
ghost use Rattle.code_rules.specs.Regions.{budget};

use mapping_model::header_lines::HeaderLine;
use mapping_model::response_spec::Body;
use mapping_model::template_text::TemplateText;
use std::alloc::{AllocError, Global};
use template_machine::program::Program;

/// The coefficients of the steps and of the bytes of several programs, the constants first. Each is a sum of so few
/// numbers of 64 bits that it fits 128.
#[derive(Debug, Drop)]
pub struct Totals {
    pub steps: Vec<u128>,
    pub bytes: Vec<u128>,
}

/// Those of the templates of a response.
pub fn total_of(
    alloc: Global,
    headers: &[HeaderLine<TemplateText>],
    body: &Body<TemplateText>,
) -> Result<Totals, AllocError>
    requires { length headers.now ≤ HEADER_LIMIT }
    ensures { IfOk result (λ total. AreTotals (values_of headers.now ++ body_templates body.now)
        total.steps.items total.bytes.items) }
{
    let total = total_of_lines(alloc, headers)?;
    match body {
        Body::Text(template) => Ok(total_with(alloc, &total, template.program())?),
        Body::Empty | Body::Json(_) | Body::Base64(_) => Ok(total),
    }
}

fn total_of_lines(alloc: Global, lines: &[HeaderLine<TemplateText>]) -> Result<Totals, AllocError>
    requires { length lines.now ≤ HEADER_LIMIT }
    ensures total { IfOk result (λ total. AreTotals (values_of lines.now) total.steps.items total.bytes.items) }
    ensures steps { IfOk result (λ total. IsWithin HEADER_LIMIT total.steps.items) }
    ensures bytes { IfOk result (λ total. IsWithin HEADER_LIMIT total.bytes.items) }
{
    let mut total = Totals {
        steps: zero(alloc)?,
        bytes: zero(alloc)?,
    };
    for line in lines {
        total = total_with(alloc, &total, line.value.program())?;
    }
    Ok(total)
}

fn zero(alloc: Global) -> Result<Vec<u128>, AllocError>
    ensures { IfOk result (λ list. list.items ≡ 0 ∷ []) }
{
    Ok(vec![in alloc; 0u128]?)
}

fn total_with(alloc: Global, total: &Totals, program: &Program) -> Result<Totals, AllocError>
    requires steps_fit { IsWithin HEADER_LIMIT total.now.steps.items }
    requires bytes_fit { IsWithin HEADER_LIMIT total.now.bytes.items }
    ensures steps { IfOk result (λ sum. sum.steps.items
        ≡ plus total.now.steps.items (as_printed (budget program.now.code).steps)) }
    ensures bytes { IfOk result (λ sum. sum.bytes.items
        ≡ plus total.now.bytes.items (as_printed (budget program.now.code).bytes)) }
    ensures steps_grow { IfOk result (λ sum. Grows total.now.steps.items sum.steps.items) }
    ensures bytes_grow { IfOk result (λ sum. Grows total.now.bytes.items sum.bytes.items) }
{
    let budget = program.budget();
    Ok(Totals {
        steps: plus(alloc, total.steps.as_slice(), budget.steps())?,
        bytes: plus(alloc, total.bytes.as_slice(), budget.bytes())?,
    })
}

/// The sum, coefficient by coefficient, which `sum` makes. That it grows is shown of that clause, apart from the loop.
fn plus(alloc: Global, total: &[u128], list: &[u64]) -> Result<Vec<u128>, AllocError>
    requires { IsWithin HEADER_LIMIT total.now }
    ensures sum { IfOk result (λ sum. sum.items ≡ plus total.now list.now) }
    ensures grows { IfOk result (λ sum. Grows total.now sum.items) }
{
    sum(alloc, total, list)
}

fn sum(alloc: Global, total: &[u128], list: &[u64]) -> Result<Vec<u128>, AllocError>
    requires { IsWithin HEADER_LIMIT total.now }
    ensures { IfOk result (λ sum. sum.items ≡ plus total.now list.now) }
{
    let mut sum = Vec::new(alloc);
    for index in 0..total.len().max(list.len()) {
        sum.push(sum_at(total, list, index))?;
    }
    Ok(sum)
}

fn sum_at(total: &[u128], list: &[u64], index: usize) -> u128
    requires { IsWithin HEADER_LIMIT total.now }
    ensures { result ≡ slice_index total.now index + slice_index list.now index }
{
    total_at(total, index) + u128::from(list_at(list, index))
}

/// The coefficient with that index, which is 0 after the last one.
fn total_at(total: &[u128], index: usize) -> u128
    ensures { result ≡ slice_index total.now index }
{
    total.get(index).copied().unwrap_or(0)
}

fn list_at(list: &[u64], index: usize) -> u64
    ensures { result ≡ slice_index list.now index }
{
    list.get(index).copied().unwrap_or(0)
}
