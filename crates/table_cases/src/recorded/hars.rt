//! The HAR documents of recordings.

use crate::recorded::exchanges::read;
use case_table::cells::Cells;
use case_table::row::Row;
use har_export::error::HarError;
use har_export::har::har_text;
use std::alloc::{AllocError, Global};

/// The text of the document of the row's exchanges with its target, or the number of the error.
pub fn text(alloc: Global, row: &Row) -> Result<String, AllocError> {
    let given = read(alloc, row)?;
    let target = given.target.ok_or(AllocError)?;
    let mut cells = Cells::new(alloc);
    match har_text(alloc, given.exchanges.as_slice(), &target) {
        Ok(text) => cells.add_cell(text.as_str()),
        Err(HarError::OutOfMemory) => return Err(AllocError),
        Err(error) => cells.add_cell(error.error_code().title()),
    }
    cells.finish()
}
