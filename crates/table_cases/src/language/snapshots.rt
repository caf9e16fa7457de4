//! Requests of rows, and the data that templates see of them. A row gives a method, a target, headers with a line feed
//! between two, and a body whose characters are its bytes (ISO-8859-1).

use crate::words::latin1;
use case_table::requests;
use case_table::row::Row;
use data_tree::request_data::RequestData;
use http_header::{HeaderName, HeaderValue};
use mock_request::error::SnapshotError;
use mock_request::snapshot::Snapshot;
use request_data::tree::request_data;
use std::alloc::{AllocError, Global};

/// The request of a row's first four cells.
pub fn snapshot(alloc: Global, row: &Row) -> Result<Snapshot, SnapshotError> {
    let headers = headers(alloc, row.cell(2))?;
    let body = latin1(alloc, row.cell(3))?;
    Snapshot::new(alloc, row.cell(0), row.cell(1), &headers, &body)
}

fn headers(alloc: Global, lines: &str) -> Result<Vec<(HeaderName, HeaderValue)>, AllocError> {
    let mut headers = Vec::new(alloc);
    for line in lines.lines() {
        headers.push(header(alloc, line)?)?;
    }
    Ok(headers)
}

fn header(alloc: Global, line: &str) -> Result<(HeaderName, HeaderValue), AllocError> {
    let (name, value) = line.split_once(": ").unwrap_or((line, ""));
    requests::header(alloc, name, value.as_bytes())
}

/// The request without headers and body.
pub fn plain_request(alloc: Global, method: &str, target: &str) -> Result<Snapshot, SnapshotError> {
    Snapshot::new(alloc, method, target, &[], &[])
}

/// The data of a request. None in the tables is over the limit.
pub fn data(alloc: Global, request: &Snapshot) -> Result<RequestData, AllocError> {
    request_data(alloc, request, None).ok().ok_or(AllocError)
}

/// The data of a request without headers and body. None in the tables is refused.
pub fn request(alloc: Global, method: &str, target: &str) -> Result<RequestData, AllocError> {
    let request = plain_request(alloc, method, target).ok().ok_or(AllocError)?;
    data(alloc, &request)
}

/// The data of a row's request. None in the tables is refused.
pub fn request_with_body(alloc: Global, row: &Row) -> Result<RequestData, AllocError> {
    let request = snapshot(alloc, row).ok().ok_or(AllocError)?;
    data(alloc, &request)
}
