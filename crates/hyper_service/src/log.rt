// What is told of messages once they are answered.
use crate::outcome::Outcome;
use answering::content::Content;
use answering::refused::Refused;
use answering::rendering::Rendering;
use bytes::Bytes;
use http::{Request, Response};
use mock_request::snapshot::Snapshot;
use proxy_client::failure::Failure;
use std::alloc::Global;
use std::sync::Wait;

/// Is told how messages are answered, outside of the book's lock and before the answer is sent. So it shouldn't take
/// long.
pub trait Log {
    /// A message was answered at once, with that outcome, if it made an event.
    fn answered<R: Wait>(
        &self,
        rt: &R,
        alloc: Global,
        message: &Request<Bytes>,
        outcome: Option<Outcome<'_>>,
        response: &Response<Content>,
    );

    /// An admin call was refused. Its outcome is that of an event that it made all the same.
    fn refused<R: Wait>(
        &self,
        rt: &R,
        alloc: Global,
        message: &Request<Bytes>,
        outcome: Option<Outcome<'_>>,
        refused: &Refused,
    );

    /// A request that was forwarded, and whose event has this number, was answered with this status; the failure is why
    /// the upstream gave no reply, if it gave none.
    fn forwarded<R: Wait>(
        &self,
        rt: &R,
        alloc: Global,
        number: u64,
        request: &Snapshot,
        status: u16,
        failure: Option<Failure>,
    );

    /// A request whose response was rendered beside the connections was answered with this status.
    fn rendered<R: Wait>(&self, rt: &R, alloc: Global, rendering: &Rendering, status: u16);
}
