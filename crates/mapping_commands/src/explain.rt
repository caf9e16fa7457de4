//! `mock explain`: what it prints, and how it ends.
ghost use Rattle.std.specs.Prelude.{◌≡◌, IfOk, if◌then◌else◌, map, string_bytes};
ghost use Rattle.command_output.specs.Output.{Followed};
ghost use Rattle.mapping_commands.specs.Answering.{sent_of};
ghost use Rattle.mapping_commands.specs.Explaining.{Explains, ExplainsFiles, IsExplanation, IsSaidBy};
ghost use Rattle.mapping_commands.specs.Explaining.{given_of, is_answered};

use crate::as_json::json_of;
pub use crate::explanation::GivenState;
use crate::explanation::{Explanation, explanation_of};
use crate::notes::{notes_of, put_all_notes};
use crate::sent::SentRequest;
use crate::text::text_of;
use command_output::error::CommandError;
use command_output::files::{Documents, FileReader, read_documents};
use command_output::output::put;
use command_output::status::{FAILURE, SUCCESS};
use request_journal::event::ServeAnswer;
use std::alloc::{AllocError, Global};
use std::io::Write;
use template_tree::escape::Escape;

/// How an explanation is printed.
#[derive(Clone, Copy)]
pub enum Form {
    Text,
    /// On a terminal.
    Coloured,
    Json,
}

/// What is to be explained.
#[derive(Clone, Copy)]
pub struct Question<'a> {
    pub request: SentRequest<'a>,
    /// The states that scenarios are set to first.
    pub states: &'a [GivenState<'a>],
    pub form: Form,
}

/// Reads the file at the path, or the files of the folder, and writes to `out` which of their mappings answers the
/// request, and why each other one doesn't. The exit status is 0 where one answers; 1 where none does, for an error,
/// whose line is on `err`, or for output that can't be written. Further lines on `err` say where and why something is
/// wrong, and warn.
pub fn explain_file<F: FileReader, O: Write, E: Write>(
    alloc: Global,
    files: &F,
    path: &str,
    question: Question<'_>,
    out: &mut O,
    err: &mut E,
    escape: Escape,
) -> u8
    ensures { Followed E.contents
        (λ e. ExplainsFiles O.contents E.contents escape (F.listed files.now path.now) (F.content files.now) path.now
        (sent_of question.entry.request) (map given_of question.entry.states.now) question.entry.form
        out.old out.new err.old e result) err.new }
{
    match read_documents(alloc, files, path) {
        Ok(documents) => {
            let (status, is_refused) = explain_to(alloc, &documents, question, out, err, escape);
            let notes = notes_of(alloc, &documents, is_refused, escape);
            put_all_notes(err, &documents, &notes);
            status
        }
        Err(error) => {
            error.report(alloc, path, err);
            FAILURE
        }
    }
}

/// The exit status, and whether an error was reported.
fn explain_to<O: Write, E: Write>(
    alloc: Global,
    documents: &Documents,
    question: Question<'_>,
    out: &mut O,
    err: &mut E,
    escape: Escape,
) -> (u8, bool)
    ensures { Explains O.contents E.contents escape (map (λ text. text.items) documents.now.texts.items)
        (sent_of question.entry.request) (map given_of question.entry.states.now) question.entry.form
        out.old out.new err.old err.new result.0 }
{
    match text_and_status(alloc, documents, question, escape) {
        Ok(printed) => match put(out, printed.text.as_bytes()) {
            Ok(()) => (printed.status, false),
            Err(_error) => (FAILURE, false),
        },
        Err(error) => {
            error.report(err);
            (FAILURE, true)
        }
    }
}

#[derive(Drop)]
struct Printed {
    text: String,
    /// The exit status once it is written.
    status: u8,
}

fn text_and_status(
    alloc: Global,
    documents: &Documents,
    question: Question<'_>,
    escape: Escape,
) -> Result<Printed, CommandError>
    ensures { IfOk result (λ printed. IsExplanation escape (map (λ text. text.items) documents.now.texts.items)
        (sent_of question.entry.request) (map given_of question.entry.states.now) question.entry.form
        (string_bytes printed.text) printed.status) }
{
    let found = explanation_of(alloc, documents, question.request, question.states, escape)?;
    Ok(Printed {
        status: status_of(&found.answer),
        text: printed_as(alloc, &found, question.form)?,
    })
}

fn status_of(answer: &ServeAnswer) -> u8
    ensures { result ≡ (if is_answered answer.now then 0 else 1) }
{
    match answer {
        ServeAnswer::Stub(_captured) => SUCCESS,
        ServeAnswer::Proxy(_target) => FAILURE,
        ServeAnswer::Unmatched => FAILURE,
    }
}

fn printed_as(alloc: Global, found: &Explanation, form: Form) -> Result<String, AllocError>
    ensures { IfOk result (λ text. IsSaidBy form found.now.answer (string_bytes text)) }
{
    match form {
        Form::Text => text_of(alloc, found, false),
        Form::Coloured => text_of(alloc, found, true),
        Form::Json => json_of(alloc, found),
    }
}
