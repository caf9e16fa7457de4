//! `mock render`: a template's text for one request.
ghost use Rattle.std.specs.Prelude.{◌≡◌, ◌⊎◌, IfOk, IfErr, string_bytes};
ghost use Rattle.data_tree.specs.RequestData.{root_of};
ghost use Rattle.safe_code.specs.Safe.{IsSafe};
ghost use Rattle.command_output.specs.Lines.{out_of_memory};
ghost use Rattle.mock_program.specs.Rendering.{Report, IsDataOf, IsReportText, IsRenderError, IsRunReport, report_text};
ghost use Rattle.mock_program.specs.Rendering.{RefusesUrl, RefusesData, Renders};
ghost use Rattle.template_tree.specs.Source.{with_escape};

use command_output::error::CommandError;
use command_output::lines::measure_line;
use command_output::output::put;
use command_output::status::{FAILURE, SUCCESS};
use data_tree::request_data::RequestData;
use mock_request::snapshot::Snapshot;
use request_data::tree::request_data;
use std::alloc::{AllocError, Global};
use std::io::Write;
use template_machine::program::{Program, render};
use template_tree::escape::Escape;

/// What `mock render` prints for a request of that method and target, without headers and body: the steps and the
/// bytes of the run, each with its budget, then the rendered text, in which values are escaped so. The template is
/// judged first, then the target, then the size of the request's data.
pub fn render_request(
    alloc: Global,
    template: &str,
    method: &str,
    target: &str,
    escape: Escape,
) -> Result<String, CommandError>
    ensures report { IfOk result (λ printed.
        IsReportText (with_escape escape template.now) method.now target.now (string_bytes printed)) }
    ensures refusal { IfErr result (IsRenderError (with_escape escape template.now) method.now target.now) }
{
    let program = Program::from_text_with(alloc, template, escape)?;
    let data = plain_request(alloc, method, target)?;
    Ok(report(alloc, &program, &data)?)
}

// The data of a request without headers and body.
fn plain_request(alloc: Global, method: &str, target: &str) -> Result<RequestData, CommandError>
    ensures data { IfOk result (λ made. IsDataOf method.now target.now (root_of made)) }
    ensures refusal { IfErr result (λ error. RefusesUrl target.now error ⊎ RefusesData method.now target.now error
        ⊎ (error ≡ out_of_memory)) }
{
    let snapshot = Snapshot::new(alloc, method, target, &[], &[])?;
    Ok(request_data(alloc, &snapshot, None)?)
}

// What is printed of a run over the request's data.
fn report(alloc: Global, program: &Program, request: &RequestData) -> Result<String, AllocError>
    ensures safe { IsSafe program.now.code }
    ensures run { IfOk result (λ printed. (report : Report) × IsRunReport program.now (root_of request.now) report
        × (string_bytes printed ≡ report_text report)) }
{
    let rendered = render(alloc, program, request)?;
    let budget = program.budget();
    let written = rendered.text.len() as u128;
    let step_line = measure_line(alloc, "steps", rendered.steps, budget.steps())?;
    let byte_line = measure_line(alloc, "bytes", written, budget.bytes())?;
    format!(in alloc; "{step_line}{byte_line}{}\n", rendered.text)
}

/// Writes what `render_request` gives to `out`, or its error to `err`, and gives the exit status: 0, or 1 for an error
/// or for output that can't be written. All memory is taken before the first byte is written.
pub fn render_to<O: Write, E: Write>(
    alloc: Global,
    template: &str,
    method: &str,
    target: &str,
    out: &mut O,
    err: &mut E,
    escape: Escape,
) -> u8
    ensures { Renders O.contents E.contents (with_escape escape template.now) method.now target.now
        out.old out.new err.old err.new result }
{
    match render_request(alloc, template, method, target, escape) {
        Ok(printed) => match put(out, printed.as_bytes()) {
            Ok(()) => SUCCESS,
            Err(_error) => FAILURE,
        },
        Err(error) => {
            error.report(err);
            FAILURE
        }
    }
}
