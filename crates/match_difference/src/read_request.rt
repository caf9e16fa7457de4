// A request as it is looked through for what there is in place of conditions.
ghost use Rattle.data_tree.specs.Tree.{view};
ghost use Rattle.data_tree.specs.Inner.OneProof.{IsWellFormed-prop};
ghost use Rattle.data_tree.specs.WellFormed.{IsWellFormed};

use crate::not_json::not_json_reason;
use data_tree::data::Data;
use json_bridge::read::data_of_json;
use mock_request::request_values::RequestValues;
use mock_request::snapshot::Snapshot;
use std::alloc::{AllocError, Global};

/// A request with its values by name and the text of its body, and the JSON of that: read once for all conditions of all
/// mappings.
#[derive(Drop)]
pub struct ReadRequest<'a> {
    pub(crate) snapshot: &'a Snapshot,
    pub(crate) values: RequestValues<'a>,
    pub(crate) body: ReadBody,
}

/// A body as JSON, or why it isn't JSON.
#[derive(Drop)]
pub(crate) enum ReadBody {
    Json(JsonBody),
    NotJson(String),
}

/// Names come in byte order in it, as whoever looks into it needs.
#[derive(Drop)]
pub(crate) struct JsonBody {
    root: Data,
    ghost well_formed: { IsWellFormed (view root) } by { IsWellFormed-prop (view root) },
}

impl JsonBody {
    pub(crate) fn root(&self) -> &Data
        ensures { IsWellFormed (view result.now) }
    {
        &self.root
    }
}

impl<'a> ReadRequest<'a> {
    pub fn read(alloc: Global, snapshot: &'a Snapshot) -> Result<ReadRequest<'a>, AllocError> {
        let values = RequestValues::read(alloc, snapshot)?;
        let body = body_of(alloc, values.body_text())?;
        Ok(ReadRequest {
            snapshot,
            values,
            body,
        })
    }
}

fn body_of(alloc: Global, text: &str) -> Result<ReadBody, AllocError> {
    match data_of_json(alloc, text)? {
        Some(root) => Ok(ReadBody::Json(JsonBody { root })),
        None => Ok(ReadBody::NotJson(not_json_reason(alloc, text)?)),
    }
}
