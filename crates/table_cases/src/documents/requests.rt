//! Requests of cells.

use crate::words::latin1;
use case_table::requests::header;
use case_table::row::Row;
use http_header::{HeaderName, HeaderValue};
use mock_request::error::SnapshotError;
use mock_request::snapshot::Snapshot;
use std::alloc::{AllocError, Global};

/// The request that a row has after its first cell. None that is asked for here is refused.
pub fn request_in(alloc: Global, row: &Row) -> Result<Snapshot, AllocError> {
    let (method, target) = (row.cell(1), row.cell(2));
    let made = request_of(alloc, method, target, row.cell(3), row.cell(4));
    made.ok().ok_or(AllocError)
}

/// The request of a method, a target, headers with a line feed between two, and a body. The characters of the headers'
/// values and of the body are bytes (ISO-8859-1).
pub fn request_of(
    alloc: Global,
    method: &str,
    target: &str,
    lines: &str,
    body: &str,
) -> Result<Snapshot, SnapshotError> {
    let headers = headers(alloc, lines)?;
    let body = latin1(alloc, body)?;
    Snapshot::new(alloc, method, target, &headers, &body)
}

fn headers(alloc: Global, lines: &str) -> Result<Vec<(HeaderName, HeaderValue)>, AllocError> {
    let mut headers = Vec::new(alloc);
    for line in lines.lines() {
        headers.push(header_of(alloc, line)?)?;
    }
    Ok(headers)
}

fn header_of(alloc: Global, line: &str) -> Result<(HeaderName, HeaderValue), AllocError> {
    let (name, value) = line.split_once(": ").unwrap_or((line, ""));
    header(alloc, name, latin1(alloc, value)?.as_slice())
}
