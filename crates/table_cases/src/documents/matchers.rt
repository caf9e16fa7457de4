//! Request matchers by themselves. A row gives a matcher's document, and then a request.

use crate::documents::answers::{refused, yes_or_no};
use crate::documents::requests::request_in;
use case_table::row::Row;
use mapping_json::read_request::read_request;
use request_match::parsed_request::ParsedRequest;
use request_match::request_matcher::RequestMatcher;
use std::alloc::{AllocError, Global};

/// Whether the request meets the matcher; or the code of the document's error.
pub fn answer(alloc: Global, row: &Row) -> Result<String, AllocError> {
    match read_request(alloc, row.cell(0).as_bytes()) {
        Ok(mut matcher) => answered(alloc, &mut matcher, row),
        Err(error) => refused(alloc, error.error_code()),
    }
}

fn answered(alloc: Global, matcher: &mut RequestMatcher, row: &Row) -> Result<String, AllocError> {
    let request = request_in(alloc, row)?;
    let mut request = ParsedRequest::new(alloc, &request);
    String::from_str(alloc, yes_or_no(matcher.matches(&mut request)?))
}
