//! What requests have. A row gives a method, a target, headers and a body.

use crate::documents::requests::request_of;
use case_table::cells::Cells;
use case_table::row::Row;
use mock_request::error::SnapshotError;
use mock_request::request_values::RequestValues;
use mock_request::snapshot::Snapshot;
use std::alloc::{AllocError, Global};

/// What the copy of a request gives back: its method, its URL, path and query, its headers and its body.
pub fn kept(alloc: Global, row: &Row) -> Result<String, AllocError> {
    match snapshot(alloc, row) {
        Ok(request) => parts_of_copy(alloc, &request),
        Err(error) => refused(alloc, error),
    }
}

fn parts_of_copy(alloc: Global, request: &Snapshot) -> Result<String, AllocError> {
    let copy = request.try_clone()?;
    parts(alloc, &copy)
}

fn parts(alloc: Global, request: &Snapshot) -> Result<String, AllocError> {
    let mut cells = Cells::new(alloc);
    cells.add_cell(request.method());
    cells.add_cell(request.url());
    cells.add_cell(request.path());
    cells.add_cell(request.query().unwrap_or("none"));
    add_headers(alloc, &mut cells, request)?;
    cells.add_cell(lossy(alloc, request.body())?.as_str());
    cells.finish()
}

fn add_headers(alloc: Global, cells: &mut Cells, request: &Snapshot) -> Result<(), AllocError> {
    cells.add("\t");
    for index in 0..request.header_count() {
        if let Some((name, value)) = request.header(index) {
            add_pair(cells, name, ": ", lossy(alloc, value)?.as_str());
        }
    }
    Ok(())
}

fn add_pair(cells: &mut Cells, name: &str, between: &str, value: &str) {
    cells.add(name);
    cells.add(between);
    cells.add(value);
    cells.add("\n");
}

fn lossy(alloc: Global, bytes: &[u8]) -> Result<String, AllocError> {
    String::from_utf8_lossy(alloc, bytes)
}

/// What matchers see of a request: the names and values of its query, of its cookies and of its headers, a line each,
/// and the text of its body.
pub fn named_values(alloc: Global, row: &Row) -> Result<String, AllocError> {
    match snapshot(alloc, row) {
        Ok(request) => values_of(alloc, &RequestValues::read(alloc, &request)?),
        Err(error) => refused(alloc, error),
    }
}

fn values_of(alloc: Global, values: &RequestValues<'_>) -> Result<String, AllocError> {
    let mut cells = Cells::new(alloc);
    cells.add_cell(values.snapshot().method());
    add_pairs(&mut cells, values.query());
    add_pairs(&mut cells, values.cookies());
    add_texts(&mut cells, values);
    cells.add_cell(values.body_text());
    cells.finish()
}

fn add_pairs(cells: &mut Cells, pairs: &[(String, String)]) {
    cells.add("\t");
    for pair in pairs {
        add_pair(cells, pair.0.as_str(), "=", pair.1.as_str());
    }
}

fn add_texts(cells: &mut Cells, values: &RequestValues<'_>) {
    cells.add("\t");
    for index in 0..values.header_count() {
        if let Some((name, text)) = values.header(index) {
            add_pair(cells, name, "=", text);
        }
    }
}

fn snapshot(alloc: Global, row: &Row) -> Result<Snapshot, SnapshotError> {
    let (method, target) = (row.cell(0), row.cell(1));
    request_of(alloc, method, target, row.cell(2), row.cell(3))
}

fn refused(alloc: Global, error: SnapshotError) -> Result<String, AllocError> {
    if error == SnapshotError::OutOfMemory {
        return Err(AllocError);
    }
    let number = error.error_code().number();
    format!(in alloc; "\terror {number}")
}
