//! Bytes in cells: UTF-8 text as it is, other bytes as two digits each, after `hex`.

use crate::cells::Cells;
use std::alloc::{AllocError, Global};
use std::str;

/// The bytes of a cell.
pub fn octets_of(alloc: Global, cell: &str) -> Result<Vec<u8>, AllocError> {
    match cell.strip_prefix("hex ") {
        Some(digits) => hex::decode(alloc, digits).ok().ok_or(AllocError),
        None => Vec::from_slice(alloc, cell.as_bytes()),
    }
}

/// Appends the bytes to the last cell.
pub fn add_octets(alloc: Global, cells: &mut Cells, octets: &[u8]) -> Result<(), AllocError> {
    match str::from_utf8(octets) {
        Ok(text) => cells.add(text),
        Err(_error) => {
            cells.add("hex ");
            cells.add(hex::encode(alloc, octets)?.as_str());
        }
    }
    Ok(())
}
