//! The codes of errors.

use crate::language::answers::add_shown;
use crate::language::numbers;
use case_table::cells::Cells;
use error_code::error_code::ErrorCode;
use std::alloc::{AllocError, Global};

const CODES: [ErrorCode; 29] = [
    ErrorCode::BadDocument,
    ErrorCode::NumberNotWhole,
    ErrorCode::UnsupportedField,
    ErrorCode::BadPattern,
    ErrorCode::BadUrl,
    ErrorCode::UnclosedTag,
    ErrorCode::UnexpectedClose,
    ErrorCode::UnknownHelper,
    ErrorCode::WrongArguments,
    ErrorCode::TooDeep,
    ErrorCode::TooLong,
    ErrorCode::BadPath,
    ErrorCode::UnsupportedTag,
    ErrorCode::CodeRefused,
    ErrorCode::UnknownMapping,
    ErrorCode::UnknownScenario,
    ErrorCode::UnknownState,
    ErrorCode::AlreadyRecording,
    ErrorCode::NotRecording,
    ErrorCode::BadTarget,
    ErrorCode::RecordingFull,
    ErrorCode::HistoryFull,
    ErrorCode::TooManyMappings,
    ErrorCode::UnknownAdminCall,
    ErrorCode::OutOfMemory,
    ErrorCode::TooLarge,
    ErrorCode::OverBudget,
    ErrorCode::UpstreamFailed,
    ErrorCode::MomentOutOfRange,
];

/// The title and the HTTP status of the code with this number; 0 where no answer reports it.
pub fn code(alloc: Global, number: &str) -> Result<String, AllocError> {
    let number = numbers::number(number).unwrap_or(0);
    for code in CODES {
        if u64::from(code.number()) == number {
            return cells_of(alloc, code);
        }
    }
    Ok(String::new(alloc))
}

fn cells_of(alloc: Global, code: ErrorCode) -> Result<String, AllocError> {
    let mut cells = Cells::new(alloc);
    cells.add_cell(code.title());
    match code.status() {
        Some(status) => add_shown(alloc, &mut cells, status)?,
        None => cells.add_cell("none"),
    }
    cells.finish()
}
