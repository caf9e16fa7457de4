//! What forwards nothing, for sites on which no recording is on, and renders each response in place.

use answering::rendering::Rendering;
use futures::future::Ready;
use hyper_service::renders::Renders;
use mapping_model::reply::Reply;
use mock_request::snapshot::Snapshot;
use proxy_client::error::ProxyError;
use proxy_client::failure::Failure;
use proxy_client::forwards::Forwards;
use recorder::target::Target;
use std::alloc::AllocError;
use tokio::runtime::Handle;

/// Each exchange fails before it begins, and so does what would render a response beside the connections.
#[derive(Clone, Copy, Debug)]
pub struct Nowhere;

impl Forwards for Nowhere {
    type Exchange = Ready<Result<Reply, ProxyError>>;

    fn exchange(
        &self,
        _handle: &Handle,
        _target: &Target,
        _request: &Snapshot,
    ) -> Result<Ready<Result<Reply, ProxyError>>, ProxyError> {
        Err(ProxyError::UpstreamFailed(Failure::NotConnected))
    }
}

impl Renders for Nowhere {
    type Run = Ready<Result<Reply, AllocError>>;

    fn start(&self, _rendering: &Rendering) -> Option<Ready<Result<Reply, AllocError>>> {
        None
    }
}
