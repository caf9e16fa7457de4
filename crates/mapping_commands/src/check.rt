//! `mock check`: which mappings of a document are taken, and the budgets of their templates.
ghost use Rattle.std.specs.Prelude.{◌≡◌, ◌+◌, ◌++◌, List, ℕ, map, decimal, IfOk, IfErr, OnOk};
ghost use Rattle.std.specs.Prelude.{if◌then◌else◌, string_bytes};
ghost use Rattle.mapping_commands.specs.Checking.{IsContentLine, IsBudgetLine, IsDocumentsRefusal, IsReportOf};
ghost use Rattle.command_output.specs.Output.{Followed};
ghost use Rattle.mapping_commands.specs.Checking.{Checks, ChecksFiles, plain_line, refused_line};
ghost use Rattle.mapping_commands.specs.Inner.Reports.{Adds, AddsDocument, Reports};
ghost use Rattle.mapping_json.specs.Documents.{IsOuterError};
ghost use Rattle.response_json.specs.Draft.{values_of, body_templates};
ghost use Rattle.serde_json.specs.View.{view};

use crate::budgets::total_of;
use crate::notes::put_all_notes;
use command_output::error::CommandError;
use command_output::files::{Documents, FileReader, read_documents};
use command_output::lines::total_text;
use command_output::output::put;
use command_output::status::{FAILURE, SUCCESS};
use error_code::error_code::ErrorCode;
use itoa::Buffer;
use json_reading::document::document_of;
use json_reading::kind::Kind;
use mapping_diagnosis::notes::{Notes, Place};
use mapping_json::error::MappingError;
use mapping_json::read::{mapping_values, response_of};
use mapping_model::header_lines::HeaderLines;
use mapping_model::response_spec::{Body, Content};
use mapping_model::template_text::TemplateText;
use serde_json::Value;
use std::alloc::{AllocError, Global};
use std::io::Write;
use std::mem::ManuallyDrop;
use template_tree::escape::Escape;

/// What is printed for documents.
#[derive(Debug, Drop)]
pub struct Checked {
    pub text: String,
    /// Whether one of their mappings is refused.
    pub is_refused: bool,
    /// How many mappings they have.
    pub count: u64,
}

/// What `mock check` prints for documents: a line for each of their mappings, numbered from 1, as `1 plain`,
/// `2 steps [5] bytes [6,1]` or `3 error 11`, where the prints of templates are escaped so. The error is that of the
/// first document that has no mappings. Where and why a mapping or a document is wrong is noted.
pub fn check_documents(
    alloc: Global,
    documents: &Documents,
    escape: Escape,
    notes: &mut Notes,
) -> Result<Checked, MappingError>
    ensures report { IfOk result (λ checked. IsReportOf escape (map (λ text. text.items) documents.now.texts.items)
        (string_bytes checked.text) checked.is_refused) }
    ensures error { IfErr result (IsDocumentsRefusal (map (λ text. text.items) documents.now.texts.items)) }
{
    let mut checked = Checked {
        text: String::new(alloc),
        is_refused: false,
        count: 0,
    };
    for (index, text) in documents.texts.iter().enumerate() {
        let file = path_at(documents, index);
        match add_document(alloc, &mut checked, file, text.as_slice(), escape, notes) {
            Ok(()) => {}
            Err(error) => {
                note_from(alloc, documents, index, checked.count, escape, notes);
                return Err(error);
            }
        }
    }
    Ok(checked)
}

/// Notes what there is to say of the documents from this index on, before which there are so many mappings: also where
/// one of them has none, so that it hides no other.
fn note_from(
    alloc: Global,
    documents: &Documents,
    first: usize,
    count: u64,
    escape: Escape,
    notes: &mut Notes,
) {
    let mut checked = Checked {
        text: String::new(alloc),
        is_refused: false,
        count,
    };
    for index in first..documents.texts.len() {
        let text = &documents.texts[index];
        let file = path_at(documents, index);
        let added = add_document(alloc, &mut checked, file, text.as_slice(), escape, notes);
        if added.is_err() {
            let _ = notes.add_document(alloc, file, text.as_slice());
        }
    }
}

fn path_at(documents: &Documents, index: usize) -> &str {
    match documents.paths.get(index) {
        Some(path) => path.as_str(),
        None => "",
    }
}

/// Adds the lines of a document's mappings.
#[tactic(auto, using(crate::proofs::LinesOf::added))]
fn add_document(
    alloc: Global,
    checked: &mut Checked,
    file: &str,
    bytes: &[u8],
    escape: Escape,
    notes: &mut Notes,
) -> Result<(), MappingError>
    ensures ok { OnOk result (AddsDocument escape bytes.now checked.old checked.new) }
    ensures error { IfErr result (IsOuterError bytes.now) }
{
    let Some(document) = document_of(alloc, bytes)? else {
        return Err(MappingError::Document(Kind::NotJson));
    };
    // Whoever checks a document ends then: its tree isn't taken apart, which takes a fifth of the time and more.
    let document = ManuallyDrop::new(document);
    match mapping_values(&document) {
        Some(values) => {
            let source = Source {
                file,
                is_list: document.get("mappings").is_some(),
            };
            Ok(add_values(alloc, checked, source, values, escape, notes)?)
        }
        None => Err(MappingError::Document(Kind::Misshapen)),
    }
}

/// From which file mappings are, and whether as a list.
#[derive(Clone, Copy)]
struct Source<'a> {
    file: &'a str,
    is_list: bool,
}

/// Each mapping is judged and its line written before the next, so that none is kept.
fn add_values(
    alloc: Global,
    checked: &mut Checked,
    source: Source<'_>,
    values: &[Value],
    escape: Escape,
    notes: &mut Notes,
) -> Result<(), AllocError>
    ensures { OnOk result (Adds escape (map view values.now) checked.old checked.new) }
{
    for (index, value) in values.iter().enumerate() {
        // As many mappings aren't in any memory.
        let Some(number) = checked.count.checked_add(1) else {
            return Err(AllocError);
        };
        let is_refused = push_line(
            alloc,
            &mut checked.text,
            source,
            index,
            number,
            value,
            escape,
            notes,
        )?;
        checked.count = number;
        checked.is_refused |= is_refused;
    }
    Ok(())
}

/// Writes the line of a value, and gives whether it is refused.
fn push_line(
    alloc: Global,
    text: &mut String,
    source: Source<'_>,
    index: usize,
    number: u64,
    value: &Value,
    escape: Escape,
    notes: &mut Notes,
) -> Result<bool, AllocError>
    ensures { IfOk result (λ refused.
        Reports escape number (view value.now) (string_bytes text.old) (string_bytes text.new) refused) }
{
    match response_of(alloc, value, escape) {
        Ok(response) => {
            note(alloc, source, index, number, value, None, notes);
            push_content_line(alloc, text, number, &response.content)?;
            Ok(false)
        }
        Err(MappingError::OutOfMemory) => Err(AllocError),
        Err(error) => {
            note(alloc, source, index, number, value, Some(error), notes);
            push_refused_line(text, number, error.error_code())?;
            Ok(true)
        }
    }
}

/// Notes what there is to say of a mapping, if there is memory for it.
fn note(
    alloc: Global,
    source: Source<'_>,
    index: usize,
    number: u64,
    value: &Value,
    error: Option<MappingError>,
    notes: &mut Notes,
) {
    let place = Place {
        file: source.file,
        number: Some(number),
        index: if source.is_list { Some(index) } else { None },
    };
    // A note is no part of the report.
    let _ = notes.add_mapping(alloc, place, value, error);
}

/// Writes what `check_documents` gives to `out`, or its error to `err`, and gives the exit status: 0, or 1 where a
/// mapping is refused, for an error, or for output that can't be written. All memory is taken before the first
/// byte is written. Lines on `err` say where and why something is wrong, and warn.
pub fn check_to<O: Write, E: Write>(
    alloc: Global,
    documents: &Documents,
    out: &mut O,
    err: &mut E,
    escape: Escape,
) -> u8
    ensures { Followed E.contents (λ e. Checks O.contents E.contents escape
        (map (λ text. text.items) documents.now.texts.items) out.old out.new err.old e result) err.new }
{
    let mut notes = Notes::of_files(alloc, documents.paths.len());
    let status = check_noting(alloc, documents, out, err, escape, &mut notes);
    put_all_notes(err, documents, &notes);
    status
}

fn check_noting<O: Write, E: Write>(
    alloc: Global,
    documents: &Documents,
    out: &mut O,
    err: &mut E,
    escape: Escape,
    notes: &mut Notes,
) -> u8
    ensures { Checks O.contents E.contents escape (map (λ text. text.items) documents.now.texts.items)
        out.old out.new err.old err.new result }
{
    match check_documents(alloc, documents, escape, notes) {
        Ok(checked) => match put(out, checked.text.as_bytes()) {
            Ok(()) => status_of(checked.is_refused),
            Err(_error) => FAILURE,
        },
        Err(error) => {
            CommandError::from(error.error_code()).report(err);
            FAILURE
        }
    }
}

fn status_of(is_refused: bool) -> u8
    ensures { result ≡ (if is_refused then 1 else 0) }
{
    if is_refused { FAILURE } else { SUCCESS }
}

/// Reads the file at the path, or the files of the folder, and does with them what `check_to` does. Where one can't be
/// read, that is written to `err`, and the exit status is 1.
pub fn check_file<F: FileReader, O: Write, E: Write>(
    alloc: Global,
    files: &F,
    path: &str,
    out: &mut O,
    err: &mut E,
    escape: Escape,
) -> u8
    ensures { Followed E.contents
        (λ e. ChecksFiles O.contents E.contents escape (F.listed files.now path.now) (F.content files.now) path.now
        out.old out.new err.old e result) err.new }
{
    match read_documents(alloc, files, path) {
        Ok(documents) => check_to(alloc, &documents, out, err, escape),
        Err(error) => {
            error.report(alloc, path, err);
            FAILURE
        }
    }
}

fn push_refused_line(text: &mut String, number: u64, code: ErrorCode) -> Result<(), AllocError>
    ensures { OnOk result (string_bytes text.new ≡ string_bytes text.old ++ refused_line number code) }
{
    push_number(text, number)?;
    text.push_str(" error ")?;
    push_number(text, u64::from(code.number()))?;
    text.push_str("\n")
}

fn push_plain_line(text: &mut String, number: u64) -> Result<(), AllocError>
    ensures { OnOk result (string_bytes text.new ≡ string_bytes text.old ++ plain_line number) }
{
    push_number(text, number)?;
    text.push_str(" plain\n")
}

fn push_number(text: &mut String, number: u64) -> Result<(), AllocError>
    ensures { OnOk result (string_bytes text.new ≡ string_bytes text.old ++ decimal number) }
{
    let mut digits = Buffer::new();
    text.push_str(digits.format(number))
}

fn push_content_line(
    alloc: Global,
    text: &mut String,
    number: u64,
    content: &Content,
) -> Result<(), AllocError>
    ensures { OnOk result ((line : List ℕ) × IsContentLine number content.now line
        × (string_bytes text.new ≡ string_bytes text.old ++ line)) }
{
    match content {
        Content::Plain { .. } => push_plain_line(text, number),
        Content::Templated { headers, body } => {
            push_budget_line(alloc, text, number, headers, body)
        }
    }
}

// Not inlined: a function clears all its locals when it is entered, and a plain response needs none of these.
#[inline(never)]
fn push_budget_line(
    alloc: Global,
    text: &mut String,
    number: u64,
    headers: &HeaderLines<TemplateText>,
    body: &Body<TemplateText>,
) -> Result<(), AllocError>
    ensures { OnOk result ((line : List ℕ)
        × IsBudgetLine number (values_of headers.now ++ body_templates body.now) line
        × (string_bytes text.new ≡ string_bytes text.old ++ line)) }
{
    text.push_str(budget_line(alloc, number, headers, body)?.as_str())
}

fn budget_line(
    alloc: Global,
    number: u64,
    headers: &HeaderLines<TemplateText>,
    body: &Body<TemplateText>,
) -> Result<String, AllocError>
    ensures { IfOk result (λ line. IsBudgetLine number (values_of headers.now ++ body_templates body.now)
        (string_bytes line)) }
{
    let total = total_of(alloc, headers.as_slice(), body)?;
    let steps = total_text(alloc, total.steps.as_slice())?;
    let bytes = total_text(alloc, total.bytes.as_slice())?;
    format!(in alloc; "{number} steps {steps} bytes {bytes}\n")
}
