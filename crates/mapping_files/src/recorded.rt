//! What `mock record` writes when it ends: the mappings that its server has recorded, and the exchanges as a HAR
//! document.
ghost use Rattle.std.specs.Prelude.{◌<◌, IfOk, List, OnOk, ℕ};
ghost use Rattle.mapping_files.specs.Saved.{IsFileText};
ghost use Rattle.mapping_files.specs.declared.file_text.Listed.TheVariants.{OldestFirst};

use crate::file_text::{Listed, NoText, file_text_of};
use crate::file_writer::FileWriter;
use crate::server::{CallError, call};
use command_output::files::FILE_LIMIT;
use serde_json::Value;
use std::alloc::{AllocError, AllocGlobal, Global};
use std::io;
use std::io::ErrorKind;
use std::net::Net;
use std::random::RandomSource;
use std::sync::Wait;
use std::time::Clock;

/// How many mappings were recorded and written, and of how many exchanges none could be made.
#[derive(Clone, Copy, Debug, PartialEq, Eq)]
pub struct Recorded {
    pub count: usize,
    pub skipped: u64,
}

/// Why what was recorded isn't written.
#[derive(Clone, Copy, Debug)]
pub enum RecordError {
    /// The server doesn't give it.
    Call(CallError),
    /// It isn't a list of mappings.
    NoMappings,
    File(io::Error),
    Har(io::Error),
    OutOfMemory,
}

impl From<CallError> for RecordError {
    fn from(error: CallError) -> RecordError {
        RecordError::Call(error)
    }
}

impl From<NoText> for RecordError {
    fn from(error: NoText) -> RecordError {
        match error {
            NoText::NoMappings => RecordError::NoMappings,
            NoText::OutOfMemory => RecordError::OutOfMemory,
        }
    }
}

/// Whether the files of a recording can be written, as far as that can be told before.
pub fn check_files<F: FileWriter>(
    alloc: Global,
    files: &F,
    file: &str,
    har: Option<&str>,
) -> Result<(), RecordError> {
    if let Err(error) = files.check(alloc, file) {
        return Err(RecordError::File(error));
    }
    if let Some(path) = har {
        if let Err(error) = files.check(alloc, path) {
            return Err(RecordError::Har(error));
        }
    }
    Ok(())
}

/// Stops the recording of the server at the address, and writes its mappings to a file, the oldest first; and then the
/// exchanges as a HAR document to another file, if it is asked for. What is empty isn't written. Where the mappings can't be
/// had or written, the exchanges are written all the same.
pub fn end_recording<R>(
    rt: &R,
    address: &str,
    file: &str,
    har: Option<&str>,
) -> Result<Recorded, RecordError>
where
    R: Wait + Net + Clock + RandomSource + AllocGlobal + FileWriter + Copy + Drop,
    ensures { IfOk result (λ recorded. (answer : List ℕ) × (text : List ℕ)
        × IsFileText OldestFirst answer text recorded.count × (0 < recorded.count → R.stored rt.now file.now text)) }
{
    let stopped = stop_recording(rt, address, file);
    let exchanges = match har {
        Some(path) if !is_nothing(&stopped) => store_exchanges(rt, address, path),
        _ => Ok(()),
    };
    let recorded = stopped?;
    exchanges?;
    Ok(recorded)
}

fn stop_recording<R>(rt: &R, address: &str, file: &str) -> Result<Recorded, RecordError>
where
    R: Wait + Net + Clock + RandomSource + AllocGlobal + FileWriter + Copy + Drop,
    ensures { IfOk result (λ recorded. (answer : List ℕ) × (text : List ℕ)
        × IsFileText OldestFirst answer text recorded.count × (0 < recorded.count → R.stored rt.now file.now text)) }
{
    let answer = call(rt, address, "POST", "/__admin/recordings/stop")?;
    let recorded = store_recorded(rt.alloc(), rt, answer.as_slice(), file)?;
    Ok(recorded)
}

// Whether the recording has no exchanges.
fn is_nothing(stopped: &Result<Recorded, RecordError>) -> bool {
    match stopped {
        Ok(recorded) => recorded.count == 0 && recorded.skipped == 0,
        Err(_error) => false,
    }
}

// Writes the exchanges of the recording as a HAR document.
fn store_exchanges<R>(rt: &R, address: &str, path: &str) -> Result<(), RecordError>
where
    R: Wait + Net + Clock + RandomSource + AllocGlobal + FileWriter + Copy + Drop,
{
    let document = call(rt, address, "GET", "/__admin/recordings/har")?;
    match rt.store(rt.alloc(), path, document.as_slice()) {
        Ok(()) => Ok(()),
        Err(error) => Err(RecordError::Har(error)),
    }
}

/// Writes the mappings of the answer to a call that has stopped a recording, if it has any.
pub fn store_recorded<F: FileWriter>(
    alloc: Global,
    files: &F,
    answer: &[u8],
    path: &str,
) -> Result<Recorded, RecordError>
    ensures { IfOk result (λ recorded. (text : List ℕ) × IsFileText OldestFirst answer.now text recorded.count
        × (0 < recorded.count → F.stored files.now path.now text)) }
{
    let made = file_text_of(alloc, answer, Listed::OldestFirst)?;
    let recorded = Recorded {
        count: made.count,
        skipped: skipped_in(alloc, answer),
    };
    if recorded.count == 0 {
        return Ok(recorded);
    }
    match store_text(alloc, files, path, made.text.as_str()) {
        Ok(()) => Ok(recorded),
        Err(error) => Err(RecordError::File(error)),
    }
}

/// Writes the text of a file of mappings. One that no command would read isn't written.
pub(crate) fn store_text<F: FileWriter>(
    alloc: Global,
    files: &F,
    path: &str,
    text: &str,
) -> io::Result<()>
    ensures { OnOk result (F.stored files.now path.now text.now) }
{
    if text.len() as u64 > FILE_LIMIT {
        return Err(io::Error::from(ErrorKind::FileTooLarge));
    }
    files.store(alloc, path, text.as_bytes())
}

// The number that the answer has beside the mappings.
fn skipped_in(alloc: Global, answer: &[u8]) -> u64 {
    match Value::from_slice(alloc, answer) {
        Ok(document) => match document.get("skipped") {
            Some(skipped) => skipped.as_u64().unwrap_or(0),
            None => 0,
        },
        Err(_error) => 0,
    }
}

impl RecordError {
    /// Lines that say what failed, and why.
    pub fn text(self, alloc: Global, file: &str, har: &str) -> Result<String, AllocError> {
        match self {
            RecordError::Call(error) => {
                let reason = error.reason(alloc)?;
                format!(in alloc; "error: the recording can't be had from the server\n  {reason}\n")
            }
            RecordError::NoMappings => String::from_str(
                alloc,
                "error: the recording has no mappings\n",
            ),
            RecordError::File(error) => format!(in alloc;
                "error: cannot write {file}\n  {error}\n"
            ),
            RecordError::Har(error) => format!(in alloc; "error: cannot write {har}\n  {error}\n"),
            RecordError::OutOfMemory => String::from_str(alloc, "error 50: out of memory\n"),
        }
    }
}
