//! What is found in the data that templates see of requests.

use crate::language::answers::error_cell;
use crate::language::snapshots::{data, plain_request, snapshot};
use crate::language::values::{cell_of, path, printed_cell, size_cells};
use case_table::cells::Cells;
use case_table::row::Row;
use data_tree::request_data::RequestData;
use mock_request::error::SnapshotError;
use mock_request::snapshot::Snapshot;
use path_template::path_template::PathTemplate;
use request_data::tree::request_data;
use std::alloc::{AllocError, Global};

fn refused(alloc: Global, error: SnapshotError) -> Result<String, AllocError> {
    if error == SnapshotError::OutOfMemory {
        return Err(AllocError);
    }
    error_cell(alloc, error.error_code().number(), None)
}

/// The JSON text of what the steps find in the data of a request.
pub fn part(alloc: Global, row: &Row) -> Result<String, AllocError> {
    match snapshot(alloc, row) {
        Ok(request) => part_of(alloc, &request, row.cell(4)),
        Err(error) => refused(alloc, error),
    }
}

fn part_of(alloc: Global, request: &Snapshot, steps: &str) -> Result<String, AllocError> {
    found(alloc, &data(alloc, request)?, steps)
}

fn found(alloc: Global, data: &RequestData, steps: &str) -> Result<String, AllocError> {
    let path = path(alloc, steps)?;
    cell_of(alloc, data.root().at(path.steps()))
}

/// What prints where the steps find something in the data of a request.
pub fn printed_part(alloc: Global, row: &Row) -> Result<String, AllocError> {
    match snapshot(alloc, row) {
        Ok(request) => printed_of(alloc, &request, row.cell(4)),
        Err(error) => refused(alloc, error),
    }
}

fn printed_of(alloc: Global, request: &Snapshot, steps: &str) -> Result<String, AllocError> {
    let (data, path) = (data(alloc, request)?, path(alloc, steps)?);
    printed_cell(alloc, data.root().at(path.steps()))
}

/// The JSON texts of the path and of its segments in the data of a request, with what a path template binds in it.
pub fn bindings(alloc: Global, row: &Row) -> Result<String, AllocError> {
    match plain_request(alloc, "GET", row.cell(0)) {
        Ok(request) => paths_of(alloc, &request, row.cell(1)),
        Err(error) => refused(alloc, error),
    }
}

// All templates of the table are well formed.
fn paths_of(alloc: Global, request: &Snapshot, template: &str) -> Result<String, AllocError> {
    let template = PathTemplate::parse(alloc, template).ok().ok_or(AllocError)?;
    path_cells(alloc, &bound_data(alloc, request, &template)?)
}

fn bound_data(
    alloc: Global,
    request: &Snapshot,
    template: &PathTemplate,
) -> Result<RequestData, AllocError> {
    request_data(alloc, request, Some(template))
        .ok()
        .ok_or(AllocError)
}

fn path_cells(alloc: Global, data: &RequestData) -> Result<String, AllocError> {
    let mut cells = Cells::new(alloc);
    cells.add(found(alloc, data, r#"["request","path"]"#)?.as_str());
    cells.add(found(alloc, data, r#"["request","pathSegments"]"#)?.as_str());
    cells.finish()
}

/// The size of the data of a request, or of what is handed back, after the error's number.
pub fn size(alloc: Global, row: &Row) -> Result<String, AllocError> {
    match snapshot(alloc, row) {
        Ok(request) => size_cells(alloc, request_data(alloc, &request, None)),
        Err(error) => refused(alloc, error),
    }
}
