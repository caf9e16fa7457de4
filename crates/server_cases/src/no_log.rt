// A log that is told nothing.
use answering::content::Content;
use answering::refused::Refused;
use answering::rendering::Rendering;
use bytes::Bytes;
use http::{Request, Response};
use hyper_service::log::Log;
use hyper_service::outcome::Outcome;
use mock_request::snapshot::Snapshot;
use proxy_client::failure::Failure;
use std::alloc::Global;
use std::sync::Wait;

#[derive(Clone, Copy, Debug, Drop)]
pub struct NoLog;

impl Log for NoLog {
    fn answered<R: Wait>(
        &self,
        _rt: &R,
        _alloc: Global,
        _message: &Request<Bytes>,
        _outcome: Option<Outcome<'_>>,
        _response: &Response<Content>,
    ) {}

    fn refused<R: Wait>(
        &self,
        _rt: &R,
        _alloc: Global,
        _message: &Request<Bytes>,
        _outcome: Option<Outcome<'_>>,
        _refused: &Refused,
    ) {}

    fn forwarded<R: Wait>(
        &self,
        _rt: &R,
        _alloc: Global,
        _number: u64,
        _request: &Snapshot,
        _status: u16,
        _failure: Option<Failure>,
    ) {}

    fn rendered<R: Wait>(&self, _rt: &R, _alloc: Global, _rendering: &Rendering, _status: u16) {}
}
