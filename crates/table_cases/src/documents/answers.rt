//! Answers, each after a TAB.

use error_code::error_code::ErrorCode;
use std::alloc::{AllocError, Global};

pub fn yes_or_no(yes: bool) -> &'static str {
    if yes { "\tyes" } else { "\tno" }
}

/// The number of the code.
pub fn refused(alloc: Global, code: ErrorCode) -> Result<String, AllocError> {
    if code == ErrorCode::OutOfMemory {
        return Err(AllocError);
    }
    let number = code.number();
    format!(in alloc; "\t{number}")
}
