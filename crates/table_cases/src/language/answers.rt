//! Cells of answers.

use case_table::cells::Cells;
use code_verifier::budget::Budget;
use std::alloc::{AllocError, Global};
use std::fmt::Debug;
use template_machine::run::Rendered;

/// What `{:?}` prints of the value: a number, numbers as a list, or the name of a variant. Each `format!` is slow to
/// prove, so this is the only one.
pub fn shown<T: Debug + Copy>(alloc: Global, value: T) -> Result<String, AllocError> {
    format!(in alloc; "{value:?}")
}

/// Appends a TAB and what `{:?}` prints of the value.
pub fn add_shown<T: Debug + Copy>(
    alloc: Global,
    cells: &mut Cells,
    value: T,
) -> Result<(), AllocError> {
    cells.add_cell(shown(alloc, value)?.as_str());
    Ok(())
}

/// A cell with the text.
pub fn text_cell(alloc: Global, text: &str) -> Result<String, AllocError> {
    let mut cells = Cells::new(alloc);
    cells.add_cell(text);
    cells.finish()
}

/// A cell with an error's number, and the byte at which its tag begins, if there is one.
pub fn error_cell(alloc: Global, number: u16, at: Option<usize>) -> Result<String, AllocError> {
    let mut cells = Cells::new(alloc);
    cells.add_cell("error ");
    cells.add_number(u32::from(number));
    if let Some(at) = at {
        cells.add(" at ");
        cells.add(shown(alloc, at)?.as_str());
    }
    cells.finish()
}

/// The budgets of a program, the steps of its run and the text that it writes.
pub fn run_cells(
    alloc: Global,
    budget: &Budget,
    rendered: &Rendered,
) -> Result<String, AllocError> {
    let mut cells = Cells::new(alloc);
    add_shown(alloc, &mut cells, budget.steps())?;
    add_shown(alloc, &mut cells, budget.bytes())?;
    add_shown(alloc, &mut cells, rendered.steps)?;
    cells.add_cell(rendered.text.as_str());
    cells.finish()
}
