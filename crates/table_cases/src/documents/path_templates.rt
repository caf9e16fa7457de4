//! Path templates. A row gives two.

use crate::documents::answers::{refused, yes_or_no};
use case_table::row::Row;
use path_template::error::PathTemplateError;
use path_template::path_template::PathTemplate;
use std::alloc::{AllocError, Global};

/// Whether the templates are the same.
pub fn same(alloc: Global, row: &Row) -> Result<String, AllocError> {
    answer(alloc, are_same(alloc, row.cell(0), row.cell(1)))
}

fn answer(alloc: Global, found: Result<bool, PathTemplateError>) -> Result<String, AllocError> {
    match found {
        Ok(yes) => String::from_str(alloc, yes_or_no(yes)),
        Err(error) => refused(alloc, error.error_code()),
    }
}

fn are_same(alloc: Global, template: &str, other: &str) -> Result<bool, PathTemplateError> {
    let template = parse(alloc, template)?;
    let other = parse(alloc, other)?;
    Ok(template.source() == other.source())
}

fn parse(alloc: Global, template: &str) -> Result<PathTemplate, PathTemplateError> {
    PathTemplate::parse(alloc, template)
}
