//! Targets, and the calls of a recording.

use crate::answers::status_word;
use crate::words::add_number;
use case_table::cells::Cells;
use case_table::exchanges::exchange_of;
use case_table::row::Row;
use case_table::words::{number, parts};
use plain_text::items::Items;
use recorder::error::RecordingError;
use recorder::recording::Recording;
use recorder::target::Target;
use std::alloc::{AllocError, Global};

/// The host, the port and the prefix of a target, or the error's number.
pub fn target(alloc: Global, row: &Row) -> Result<String, AllocError> {
    let mut cells = Cells::new(alloc);
    match Target::parse(alloc, row.cell(0)) {
        Ok(target) => {
            let target = target.clone()?;
            cells.add_cell(target.host());
            cells.add_cell("");
            cells.add_number(u32::from(target.port()));
            cells.add_cell(target.prefix());
        }
        Err(error) => refused(&mut cells, error)?,
    }
    cells.finish()
}

/// What each call answers, and then what a copy of the recording is and has.
pub fn calls(alloc: Global, row: &Row) -> Result<String, AllocError> {
    let mut cells = Cells::new(alloc);
    let mut recording = Recording::NeverStarted;
    for call in row.given.as_slice() {
        match answer(alloc, &mut recording, call.as_str()) {
            Ok(()) => cells.add_cell("done"),
            Err(error) => refused(&mut cells, error)?,
        }
    }
    let recording = recording.try_clone()?;
    add_recording(alloc, &mut cells, &recording)?;
    cells.finish()
}

fn add_recording(
    alloc: Global,
    cells: &mut Cells,
    recording: &Recording,
) -> Result<(), AllocError> {
    cells.add_cell(status_word(recording.status()));
    if let Some(session) = recording.session() {
        let count = session.exchanges.as_slice().len();
        cells.add_cell(session.target.as_str());
        cells.add_cell("");
        add_number(alloc, cells, count as u64)?;
    }
    Ok(())
}

fn answer(alloc: Global, recording: &mut Recording, call: &str) -> Result<(), RecordingError> {
    let (word, text) = parts(call);
    let (first, target) = parts(text);
    match word {
        "start" => start(alloc, recording, number(first), target),
        "take" => recording.take(number(first), exchange_of(alloc, "GET /")?),
        _ => recording.stop(),
    }
}

fn start(
    alloc: Global,
    recording: &mut Recording,
    number: u64,
    target: &str,
) -> Result<(), RecordingError> {
    recording.start(alloc, number, target, Items::from(Vec::new(alloc)), true)
}

fn refused(cells: &mut Cells, error: RecordingError) -> Result<(), AllocError> {
    if error == RecordingError::OutOfMemory {
        return Err(AllocError);
    }
    cells.add_cell("");
    cells.add_number(u32::from(error.error_code().number()));
    Ok(())
}
