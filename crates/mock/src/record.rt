// `mock record`: a server that records, and writes what it has recorded when it ends.
ghost use Rattle.std.specs.Prelude.{◌≤◌};

use crate::arguments::{RecordArguments, ServeArguments};
use crate::serve::{Plan, serve};
use crate::system::System;
use crate::watch::{Outcome, RecordedFiles, Watch};
use admin_json::error::BodyError;
use command_output::error::CommandError;
use command_output::output::{put_all, put_notes};
use command_output::status::FAILURE;
use error_code::error_code::ErrorCode;
use itoa::Buffer;
use mapping_files::recorded::{RecordError, Recorded, check_files};
use mapping_files::start::recording_start;
use std::alloc::{AllocError, Global};
use std::io::{Read, Write};
use std::sync::Arc;

/// Serves, records from the start on, and ends when `input` does, once what was recorded is written. Says how many
/// mappings it has written, and of how many exchanges none could be made. Where a file can't be written, as far as that
/// can be told before, it doesn't serve. Gives the exit status.
pub(crate) fn record<R, O, E, W, I>(
    rt: R,
    served: ServeArguments<'_>,
    given: &RecordArguments<'_>,
    out: &mut O,
    err: &mut E,
    log: W,
    input: I,
) -> u8
where
    R: System,
    O: Write,
    E: Write,
    W: Write + Drop + Send + 'static,
    I: Read + Drop + Send + 'static,
    ensures { result ≤ 1 }
{
    if let Err(error) = check_files(rt.alloc(), &rt, given.file, given.har) {
        return report(rt.alloc(), given, error, err);
    }
    match planned(rt.alloc(), given, input) {
        Ok((plan, outcome)) => {
            let status = serve(rt, served, plan, out, err, log);
            match outcome.get(&rt) {
                Some(recorded) => {
                    if recorded.count == 0 {
                        put_unwritten(rt.alloc(), given.file, err);
                    }
                    put_recorded(recorded, status, out)
                }
                None => status,
            }
        }
        Err(error) => {
            CommandError::from(error.error_code()).report(err);
            FAILURE
        }
    }
}

// What is recorded from the start on, and what is done at the end.
fn planned<I: Read + Drop + Send + 'static>(
    alloc: Global,
    given: &RecordArguments<'_>,
    input: I,
) -> Result<(Plan<I>, Arc<Outcome>), BodyError> {
    let start = recording_start(alloc, given.target, given.captured.as_slice())?;
    let outcome = new_outcome(alloc)?;
    let theirs = Arc::try_clone(&outcome)?;
    let files = RecordedFiles::new(alloc, given.file, given.har, theirs)?;
    let plan = Plan {
        recording: Some(start),
        page: None,
        watch: Watch::of_recording(input, files),
    };
    Ok((plan, outcome))
}

fn new_outcome(alloc: Global) -> Result<Arc<Outcome>, AllocError> {
    Ok(Arc::new(alloc, Outcome::new())?)
}

fn put_recorded<O: Write>(recorded: Recorded, status: u8, out: &mut O) -> u8
    requires { status ≤ 1 }
    ensures { result ≤ 1 }
{
    let mut count = Buffer::new();
    let mut skipped = Buffer::new();
    let texts = [
        "recorded ",
        count.format(recorded.count),
        " mappings, skipped ",
        skipped.format(recorded.skipped),
        "\n",
    ];
    match put_all(out, texts.as_slice()) {
        Ok(()) => status,
        Err(_error) => FAILURE,
    }
}

// Why the file isn't there, or is what it was before. It is said if there is memory for it.
fn put_unwritten<E: Write>(alloc: Global, file: &str, err: &mut E) {
    if let Ok(text) = format!(in alloc;
        "warning: no mappings were recorded, so {file} isn't written\n"
    ) {
        put_notes(err, text.as_str());
    }
}

fn report<E: Write>(
    alloc: Global,
    given: &RecordArguments<'_>,
    error: RecordError,
    err: &mut E,
) -> u8
    ensures { result ≤ 1 }
{
    match error.text(alloc, given.file, given.har.unwrap_or("")) {
        Ok(text) => put_notes(err, text.as_str()),
        Err(_error) => CommandError::from(ErrorCode::OutOfMemory).report(err),
    }
    FAILURE
}
