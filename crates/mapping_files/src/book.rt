// The book that is served.
ghost use Rattle.std.specs.Prelude.{◌≡◌, ◌-◌, [], IfOk, IfSome, Some, map, option_copied, unwrap_or};
ghost use Rattle.request_journal.specs.Past.{opened};
ghost use Rattle.mapping_files.specs.Served.{IsOpenedWith, IsOpening, IsServedBook};

use crate::accepted::{Skipped, accepted_of};
use crate::first_event::{FREE_EVENTS, first_event};
use command_output::error::CommandError;
use command_output::files::{Documents, FileReader, read_documents};
use command_output::output::put_notes;
use mapping_commands::check::check_documents;
use mapping_commands::fresh::{book_with, mappings_of};
use mapping_commands::notes::{notes_of, put_all_notes};
use mapping_diagnosis::notes::Notes;
use request_match::ready_mapping::ReadyMapping;
use std::alloc::{AllocError, Global};
use std::io::Write;
use stub_book::book::Book;
use template_tree::escape::Escape;

/// What a book is opened with.
#[derive(Clone, Copy)]
pub struct BookArguments<'a> {
    /// The path of a file of mappings, or of a folder of such files.
    pub mappings: Option<&'a str>,
    /// How the prints of templates are escaped.
    pub escape: Escape,
    /// The number of the first event, if it is asked for.
    pub first_event: Option<u64>,
    /// Whether mappings and files that are refused are left out. Otherwise there is no book then.
    pub skips_refused: bool,
}

/// A book with the mappings of the file, or of the files of a folder one after another; or with none. What is wrong is
/// reported on `err`: first the files, then their mappings, then that they are too many. Lines there say where and why,
/// of all mappings that are refused, and warn.
pub fn book_of<F: FileReader, E: Write>(
    alloc: Global,
    files: &F,
    given: BookArguments<'_>,
    err: &mut E,
) -> Option<Book>
    ensures { IfSome result (IsServedBook given.entry.first_event given.entry.skips_refused given.entry.escape
        (option_copied given.entry.mappings) (F.listed files.now) (F.content files.now)) }
{
    match given.mappings {
        Some(path) => book_at(alloc, files, path, given, err),
        None => empty_book(alloc, given.first_event, err),
    }
}

fn empty_book<E: Write>(alloc: Global, first_event: Option<u64>, err: &mut E) -> Option<Book>
    ensures { IfSome result (λ book. book ≡ opened (unwrap_or first_event 1 - 1) []) }
{
    let opening = first_event.unwrap_or(1).saturating_sub(1);
    match book_with(alloc, Vec::new(alloc), opening) {
        Ok(book) => Some(book),
        Err(error) => {
            error.report(err);
            None
        }
    }
}

fn book_at<F: FileReader, E: Write>(
    alloc: Global,
    files: &F,
    path: &str,
    given: BookArguments<'_>,
    err: &mut E,
) -> Option<Book>
    ensures { IfSome result (IsServedBook given.entry.first_event given.entry.skips_refused given.entry.escape
        (Some path.now) (F.listed files.now) (F.content files.now)) }
{
    match read_documents(alloc, files, path) {
        Ok(documents) => book_of_documents(alloc, &documents, given, err),
        Err(error) => {
            error.report(alloc, path, err);
            None
        }
    }
}

// The book of the documents' mappings, and what is said of them.
fn book_of_documents<E: Write>(
    alloc: Global,
    documents: &Documents,
    given: BookArguments<'_>,
    err: &mut E,
) -> Option<Book>
    ensures { IfSome result (IsOpenedWith given.entry.first_event given.entry.skips_refused given.entry.escape
        (map (λ text. text.items) documents.now.texts.items)) }
{
    match opened(alloc, documents, given) {
        Ok((book, skipped)) => {
            report_skipped(alloc, skipped, err);
            put_book_notes(alloc, documents, given, !skipped.is_none(), err);
            if given.first_event.is_none() {
                put_first_event(alloc, book.event_count(), err);
            }
            Some(book)
        }
        Err(error) => {
            error.report(err);
            put_book_notes(alloc, documents, given, true, err);
            None
        }
    }
}

fn opened(
    alloc: Global,
    documents: &Documents,
    given: BookArguments<'_>,
) -> Result<(Book, Skipped), CommandError>
    ensures { IfOk result (λ made. IsOpenedWith given.entry.first_event given.entry.skips_refused given.entry.escape
        (map (λ text. text.items) documents.now.texts.items) made.0) }
{
    if given.skips_refused {
        let accepted = accepted_of(alloc, documents.texts.as_slice(), given.escape)?;
        let skipped = accepted.skipped;
        let opening = opening_of(alloc, given, accepted.mappings.as_slice())?;
        Ok((book_with(alloc, accepted.mappings, opening)?, skipped))
    } else {
        let mappings = mappings_of(alloc, documents.texts.as_slice(), given.escape)?;
        let opening = opening_of(alloc, given, mappings.as_slice())?;
        Ok((book_with(alloc, mappings, opening)?, Skipped::none()))
    }
}

// The number before that of the first event.
fn opening_of(
    alloc: Global,
    given: BookArguments<'_>,
    mappings: &[ReadyMapping],
) -> Result<u64, AllocError>
    ensures { IfOk result (λ opening. IsOpening given.entry.first_event opening) }
{
    match given.first_event {
        Some(first) => Ok(first.saturating_sub(1)),
        None => Ok(first_event(alloc, mappings)?.saturating_sub(1)),
    }
}

// It is said if the first event hasn't the number 1, if there is memory for it.
fn put_first_event<E: Write>(alloc: Global, opening: u64, err: &mut E) {
    if opening == 0 {
        return;
    }
    let first = opening.saturating_add(1);
    let last = opening.saturating_add(FREE_EVENTS);
    if let Ok(line) = format!(in alloc;
        "the first event has the number {first}: no event up to {last} gives an id of these files\n"
    ) {
        put_notes(err, line.as_str());
    }
}

// How many were left out, if some were.
fn report_skipped<E: Write>(alloc: Global, skipped: Skipped, err: &mut E) {
    if skipped.is_none() {
        return;
    }
    let Skipped { mappings, files } = skipped;
    let mapping_word = if mappings == 1 { "mapping" } else { "mappings" };
    let file_word = if files == 1 { "file" } else { "files" };
    // It is said if there is memory for it.
    if let Ok(line) = format!(in alloc;
        "skipped {mappings} {mapping_word}, {files} {file_word}\n"
    ) {
        put_notes(err, line.as_str());
    }
}

// Which files were passed over, and what there is to say of the others.
fn put_book_notes<E: Write>(
    alloc: Global,
    documents: &Documents,
    given: BookArguments<'_>,
    is_refused: bool,
    err: &mut E,
) {
    let mut notes = if is_refused {
        refusals_of(alloc, documents, given.escape)
    } else {
        notes_of(alloc, documents, false, given.escape)
    };
    if let Some(first) = given.first_event {
        let _ = notes.add_replaced_later(alloc, first);
    }
    put_all_notes(err, documents, &notes);
}

// Where and why each mapping that is refused is wrong, and warnings.
fn refusals_of(alloc: Global, documents: &Documents, escape: Escape) -> Notes {
    let mut notes = Notes::of_files(alloc, documents.paths.len());
    let _ = check_documents(alloc, documents, escape, &mut notes);
    notes
}
