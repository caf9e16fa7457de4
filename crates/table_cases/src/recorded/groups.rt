//! Equal keys as groups.

use crate::words::add_number;
use case_table::cells::Cells;
use case_table::row::Row;
use key_groups::place::Place;
use key_groups::places::places_of;
use std::alloc::{AllocError, Global};

/// For each cell which of the cells that are equal to it it is, of how many, and in which of the larger groups.
pub fn places(alloc: Global, row: &Row) -> Result<String, AllocError> {
    let mut cells = Cells::new(alloc);
    for place in places_of(alloc, row.given.as_slice())?.as_slice() {
        add_place(alloc, &mut cells, place)?;
    }
    cells.finish()
}

fn add_place(alloc: Global, cells: &mut Cells, place: &Place) -> Result<(), AllocError> {
    cells.add_cell("");
    add_number(alloc, cells, place.position as u64)?;
    cells.add(" of ");
    add_number(alloc, cells, place.size as u64)?;
    if let Some(group) = place.group {
        cells.add(" in ");
        add_number(alloc, cells, group as u64)?;
    }
    Ok(())
}
