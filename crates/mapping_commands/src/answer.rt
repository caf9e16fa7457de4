//! `mock answer`: the reply to one request.
ghost use Rattle.std.specs.Prelude.{IfErr, IfOk, map};
ghost use Rattle.command_output.specs.Output.{Followed};
ghost use Rattle.mapping_commands.specs.Answering.{Answers, AnswersFiles, IsAnswerError, IsReplyText, sent_of};

use crate::fresh::{answer_of, fresh_book, reply_by};
use crate::notes::{notes_of, put_all_notes};
use crate::printed::reply_text;
use crate::sent::{SentRequest, snapshot_of};
use command_output::error::CommandError;
use command_output::files::{Documents, FileReader, read_documents};
use command_output::output::put;
use command_output::status::{FAILURE, SUCCESS};
use std::alloc::Global;
use std::io::Write;
use template_tree::escape::Escape;

/// What `mock answer` prints for a request: the reply of a book that was just opened with the documents' mappings,
/// whose templates' prints are escaped so.
pub fn answer_request(
    alloc: Global,
    documents: &Documents,
    sent: SentRequest<'_>,
    escape: Escape,
) -> Result<Vec<u8>, CommandError>
    ensures reply { IfOk result (λ printed. IsReplyText escape (map (λ text. text.items) documents.now.texts.items)
        (sent_of sent.entry) printed.items) }
    ensures refusal { IfErr result
        (IsAnswerError escape (map (λ text. text.items) documents.now.texts.items) (sent_of sent.entry)) }
{
    let mut book = fresh_book(alloc, documents, escape)?;
    let request = snapshot_of(alloc, sent)?;
    let answer = answer_of(&mut book, &request)?;
    let reply = reply_by(alloc, &answer, &request)?;
    Ok(reply_text(alloc, &reply)?)
}

/// Writes what `answer_request` gives to `out`, or its error to `err`, and gives the exit status: 0, or 1 for an error
/// or for output that can't be written. All memory is taken before the first byte is written.
pub fn answer_to<O: Write, E: Write>(
    alloc: Global,
    documents: &Documents,
    sent: SentRequest<'_>,
    out: &mut O,
    err: &mut E,
    escape: Escape,
) -> u8
    ensures { Answers O.contents E.contents escape (map (λ text. text.items) documents.now.texts.items)
        (sent_of sent.entry) out.old out.new err.old err.new result }
{
    match answer_request(alloc, documents, sent, escape) {
        Ok(printed) => match put(out, printed.as_slice()) {
            Ok(()) => SUCCESS,
            Err(_error) => FAILURE,
        },
        Err(error) => {
            error.report(err);
            FAILURE
        }
    }
}

/// Reads the file at the path, or the files of the folder, and does with them what `answer_to` does. Where one can't be
/// read, that is written to `err`, and the exit status is 1. Further lines on `err` say where and why something is
/// wrong, and warn.
pub fn answer_file<F: FileReader, O: Write, E: Write>(
    alloc: Global,
    files: &F,
    path: &str,
    sent: SentRequest<'_>,
    out: &mut O,
    err: &mut E,
    escape: Escape,
) -> u8
    ensures { Followed E.contents
        (λ e. AnswersFiles O.contents E.contents escape (F.listed files.now path.now) (F.content files.now) path.now
        (sent_of sent.entry) out.old out.new err.old e result) err.new }
{
    match read_documents(alloc, files, path) {
        Ok(documents) => {
            let status = answer_to(alloc, &documents, sent, out, err, escape);
            let notes = notes_of(alloc, &documents, status != SUCCESS, escape);
            put_all_notes(err, &documents, &notes);
            status
        }
        Err(error) => {
            error.report(alloc, path, err);
            FAILURE
        }
    }
}
