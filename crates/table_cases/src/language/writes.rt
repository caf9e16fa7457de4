//! What reaches a writer that takes little at a time.

use crate::language::numbers::index;
use crate::language::writer::SlowWriter;
use case_table::cells::Cells;
use case_table::row::Row;
use command_output::output::put;
use std::alloc::{AllocError, Global};

/// What a writer with room for so many bytes has of the text, and whether that is reported as all of it.
pub fn written(alloc: Global, row: &Row) -> Result<String, AllocError> {
    let room = index(row.cell(1)).unwrap_or(0);
    let mut writer = SlowWriter::new(alloc, room)?;
    let word = if is_put(&mut writer, row.cell(0)) {
        "all"
    } else {
        "not all"
    };
    let text = std::str::from_utf8(writer.taken.as_slice()).unwrap_or("not UTF-8");
    let mut cells = Cells::new(alloc);
    cells.add_cell(text);
    cells.add_cell(word);
    cells.finish()
}

fn is_put(writer: &mut SlowWriter, text: &str) -> bool {
    put(writer, text.as_bytes()).is_ok()
}
