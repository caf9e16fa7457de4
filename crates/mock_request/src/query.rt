// The names and values of a query.
ghost use Rattle.std.specs.Prelude.{◌≡◌, map, IfOk};
ghost use Rattle.form_urlencoded.specs.Form.{parse};
ghost use Rattle.mock_request.specs.Query.{query_pairs, text_pair};
ghost use Rattle.mock_request.specs.Values.{pairs_of};

use crate::snapshot::Snapshot;
use std::alloc::{AllocError, Global};

/// The decoded names and values of the query in their order, none where the URL has no query.
pub fn query_pairs(alloc: Global, snapshot: &Snapshot) -> Result<Vec<(String, String)>, AllocError>
    ensures { IfOk result (λ pairs. pairs_of pairs.items ≡ query_pairs snapshot.now.url) }
{
    match snapshot.query() {
        Some(query) => form_pairs(alloc, query),
        None => Ok(Vec::new(alloc)),
    }
}

fn form_pairs(alloc: Global, form: &str) -> Result<Vec<(String, String)>, AllocError>
    ensures { IfOk result (λ pairs. pairs_of pairs.items ≡ map text_pair (parse form.now)) }
{
    let mut pairs = Vec::new(alloc);
    for pair in form_urlencoded::parse(alloc, form.as_bytes()).into_owned() {
        pairs.push(pair?)?;
    }
    Ok(pairs)
}
