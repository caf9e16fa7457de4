// A book that was just opened with the mappings of a document, and what it answers a request with.
ghost use Rattle.std.specs.Prelude.{◌≡◌, ◌⊎◌, ◌≤◌, IfErr, IfOk, None, OnOk, length, map};
ghost use Rattle.command_output.specs.Lines.{out_of_memory};
ghost use Rattle.mapping_commands.specs.Answering.{HasBook, IsReplyBy, RefusesBook, RefusesDocument, SpellDocuments};
ghost use Rattle.mapping_commands.specs.Fresh.{IsFresh};
ghost use Rattle.mapping_commands.specs.Inner.Own.{IsOwn};
ghost use Rattle.request_journal.specs.Choice.{IsChoice};
ghost use Rattle.request_journal.specs.Live.{live};
ghost use Rattle.request_journal.specs.Past.{opened};
ghost use Rattle.request_journal.specs.declared.limits.TheConstants.{LIVE_LIMIT};
ghost use Rattle.stub_book.specs.Refusals.{IsFull, IsOpenRefusal};

use command_output::error::CommandError;
use command_output::files::Documents;
use mapping_json::read::read_mappings_with;
use mapping_model::reply::Reply;
use mock_request::snapshot::Snapshot;
use request_journal::event::ServeAnswer;
use request_match::ready_mapping::ReadyMapping;
use std::alloc::{AllocError, Global};
use stub_book::book::Book;
use stub_response::limits::Limits;
use stub_response::respond::respond;
use stub_response::unmatched_reply::unmatched_reply;
use template_tree::escape::Escape;

/// A book with the mappings of the documents, one document after another, whose templates' prints are escaped so. Its
/// first event has the number 1.
pub fn fresh_book(
    alloc: Global,
    documents: &Documents,
    escape: Escape,
) -> Result<Book, CommandError>
    ensures ok { IfOk result (IsFresh escape (map (λ text. text.items) documents.now.texts.items)) }
    ensures opens { OnOk result (HasBook escape (map (λ text. text.items) documents.now.texts.items)) }
    ensures refusal { IfErr result
        (λ error. RefusesDocument escape (map (λ text. text.items) documents.now.texts.items) error
        ⊎ RefusesBook escape (map (λ text. text.items) documents.now.texts.items) error
        ⊎ (error ≡ out_of_memory)) }
{
    let mappings = mappings_of(alloc, documents.texts.as_slice(), escape)?;
    book_with(alloc, mappings, 0)
}

/// A book that was just opened with the mappings. `opening` is the number before that of its first event.
pub fn book_with(
    alloc: Global,
    mappings: Vec<ReadyMapping>,
    opening: u64,
) -> Result<Book, CommandError>
    ensures is { IfOk result (λ book. book ≡ opened opening mappings.items) }
    ensures few { IfOk result (λ book. length (live book) ≤ LIVE_LIMIT) }
    ensures refusal { IfErr result
        (λ error. IsOpenRefusal opening mappings.items error.code × (error.at ≡ None)) }
{
    match Book::new(alloc, mappings, opening) {
        Ok(book) => {
            // For its clause: no more mappings are live than may be.
            let _number = book.event_count();
            Ok(book)
        }
        Err(error) => Err(CommandError::from(error.code)),
    }
}

/// The mappings of the documents, one document after another.
pub fn mappings_of(
    alloc: Global,
    texts: &[Vec<u8>],
    escape: Escape,
) -> Result<Vec<ReadyMapping>, CommandError>
    ensures ok { IfOk result (λ mappings.
        SpellDocuments escape (map (λ text. text.items) texts.now) mappings.items) }
    ensures refusal { IfErr result
        (λ error. RefusesDocument escape (map (λ text. text.items) texts.now) error ⊎ (error ≡ out_of_memory)) }
{
    let mut mappings = Vec::new(alloc);
    for text in texts {
        match read_mappings_with(alloc, text.as_slice(), escape) {
            Ok(mut more) => mappings.append(&mut more)?,
            Err(error) => return Err(CommandError::from(error.error.error_code())),
        }
    }
    Ok(mappings)
}

/// What the book answers the request with. Only a full book refuses it while there is memory.
pub(crate) fn answer_of(book: &mut Book, request: &Snapshot) -> Result<ServeAnswer, CommandError>
    ensures ok { IfOk result (IsChoice book.old request.now) }
    ensures refusal { ¬ (IsFull book.old) → IfErr result (λ error. error ≡ out_of_memory) }
{
    match book.serve(request.try_clone()?) {
        Ok(answer) => Ok(answer),
        Err(error) => Err(CommandError::from(error.code)),
    }
}

/// The reply, by that answer.
pub(crate) fn reply_by(
    alloc: Global,
    answer: &ServeAnswer,
    request: &Snapshot,
) -> Result<Reply, AllocError>
    requires { IsOwn answer.now }
    ensures { IfOk result (IsReplyBy answer.now request.now) }
{
    match answer {
        ServeAnswer::Stub(captured) => {
            respond(
                alloc,
                captured.mapping.spec.spec(),
                request,
                Limits::usual(),
            )
        }
        ServeAnswer::Proxy(_target) => unreachable!(),
        ServeAnswer::Unmatched => unmatched_reply(alloc),
    }
}
