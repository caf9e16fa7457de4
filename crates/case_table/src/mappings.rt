//! Mappings of documents.

use mapping_json::read::read_mapping;
use request_match::ready_mapping::ReadyMapping;
use std::alloc::{AllocError, Global};

/// The mapping of a document. A document that is refused counts as one for which memory didn't suffice.
pub fn mapping(alloc: Global, document: &str) -> Result<ReadyMapping, AllocError> {
    let mapping = read_mapping(alloc, document.as_bytes());
    mapping.ok().ok_or(AllocError)
}
