//! Mappings that are ready to be served. A row gives a mapping's document, and then a request.

use crate::documents::answers::yes_or_no;
use crate::documents::mappings::{read, refused};
use crate::documents::requests::request_in;
use case_table::row::{Row, add_cell};
use mapping_model::mapping_spec::MappingSpec;
use mock_request::snapshot::Snapshot;
use request_match::parsed_request::ParsedRequest;
use request_match::ready_mapping::ReadyMapping;
use request_match::shared_spec::SharedSpec;
use std::alloc::{AllocError, Global};

/// Whether the request meets the mapping, the name of the mapping, and whether a copy of it is the same; or the code of
/// the document's error.
pub fn answer(alloc: Global, row: &Row) -> Result<String, AllocError> {
    match read(alloc, row.cell(0).as_bytes()) {
        Ok(mut mapping) => answered(alloc, &mut mapping, row),
        Err(error) => refused(alloc, error),
    }
}

fn answered(alloc: Global, mapping: &mut ReadyMapping, row: &Row) -> Result<String, AllocError> {
    let yes = meets(alloc, mapping, row)?;
    cells(alloc, mapping, yes)
}

fn cells(alloc: Global, mapping: &ReadyMapping, yes: bool) -> Result<String, AllocError> {
    let mut cells = String::from_str(alloc, yes_or_no(yes))?;
    add_cell(&mut cells, name(mapping.spec()))?;
    cells.push_str(yes_or_no(is_same(mapping.shared())?))?;
    Ok(cells)
}

fn meets(alloc: Global, mapping: &mut ReadyMapping, row: &Row) -> Result<bool, AllocError> {
    meets_request(alloc, mapping, &request_in(alloc, row)?)
}

fn meets_request(
    alloc: Global,
    mapping: &mut ReadyMapping,
    request: &Snapshot,
) -> Result<bool, AllocError> {
    let mut request = ParsedRequest::new(alloc, request);
    matches(mapping, &mut request)
}

fn matches(
    mapping: &mut ReadyMapping,
    request: &mut ParsedRequest<'_>,
) -> Result<bool, AllocError> {
    mapping.matches(request)
}

// Whether a copy is the same.
fn is_same(mapping: &SharedSpec) -> Result<bool, AllocError> {
    let copy = mapping.clone()?;
    Ok(copy.same(mapping))
}

fn name(mapping: &MappingSpec) -> &str {
    match &mapping.name {
        Some(name) => name.as_str(),
        None => "",
    }
}
