//! The calls of scenarios.

use case_table::cells::Cells;
use case_table::row::Row;
use case_table::words::parts;
use scenario_core::scenarios::Scenarios;
use std::alloc::{AllocError, Global};

/// What each call answers: `done`, or the state that it asks for.
pub fn calls(alloc: Global, row: &Row) -> Result<String, AllocError> {
    let mut cells = Cells::new(alloc);
    let mut scenarios = Scenarios::new(alloc);
    for cell in row.given.as_slice() {
        let (word, text) = parts(cell.as_str());
        if word == "state" {
            // A copy answers, so that copies are compared too.
            cells.add_cell(scenarios.try_clone()?.state(text));
        } else {
            change(alloc, &mut scenarios, word, text)?;
            cells.add_cell("done");
        }
    }
    cells.finish()
}

fn change(
    alloc: Global,
    scenarios: &mut Scenarios,
    word: &str,
    text: &str,
) -> Result<(), AllocError> {
    let (name, state) = parts(text);
    match word {
        "move" => scenarios.move_to(alloc, name, state),
        _ => {
            scenarios.reset();
            Ok(())
        }
    }
}
