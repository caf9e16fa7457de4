//! Exchanges that are recorded.

use crate::requests::request_of;
use crate::words::value;
use bytes::Bytes;
use mapping_model::reply::Reply;
use plain_text::items::Items;
use recorder::exchange::{Exchange, SharedExchange};
use std::alloc::{AllocError, Global};

/// The exchange of a request of words, among them the body of its reply as `reply=1`.
pub fn exchange_of(alloc: Global, words: &str) -> Result<SharedExchange, AllocError> {
    let body = value(words, "reply").unwrap_or("");
    let reply = Reply {
        status: 200,
        headers: Items::from(Vec::new(alloc)),
        body: Bytes::copy_from_slice(alloc, body.as_bytes())?,
    };
    SharedExchange::new(
        alloc,
        Exchange {
            request: request_of(alloc, words)?,
            reply,
            started_ms: 0,
            wait_ms: 0,
        },
    )
}
