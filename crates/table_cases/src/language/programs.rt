//! Templates as programs: a row gives a request, with headers and a body, and the text of a template.

use crate::language::answers::{error_cell, run_cells};
use crate::language::snapshots::{data, snapshot};
use case_table::row::Row;
use std::alloc::{AllocError, Global};
use template_machine::error::ProgramError;
use template_machine::program::{Program, render};
use template_tree::escape::Escape;

/// The budgets of the template's program, the steps of its run and the text that it writes; or the template's error,
/// and the byte at which its tag begins.
pub fn rendered(alloc: Global, row: &Row, escape: Escape) -> Result<String, AllocError> {
    match Program::from_text_with(alloc, row.cell(4), escape) {
        Ok(program) => written(alloc, row, &program),
        Err(error) => refused(alloc, &error),
    }
}

fn written(alloc: Global, row: &Row, program: &Program) -> Result<String, AllocError> {
    let request = snapshot(alloc, row).ok().ok_or(AllocError)?;
    let data = data(alloc, &request)?;
    run_cells(alloc, program.budget(), &render(alloc, program, &data)?)
}

fn refused(alloc: Global, error: &ProgramError) -> Result<String, AllocError> {
    if let ProgramError::OutOfMemory = error {
        return Err(AllocError);
    }
    let at = error.at().unwrap_or(0);
    error_cell(alloc, error.error_code().number(), Some(at))
}
