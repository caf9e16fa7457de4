// What is served.
use admin_routes::router::AdminRoutes;
use bytes::Bytes;
use shared_book::origin::Origin;
use shared_book::shared_book::SharedBook;
use stub_response::limits::Limits;
use template_tree::escape::Escape;

/// A shared book, and how its requests are answered. It has no lock of its own.
#[derive(Drop)]
pub struct Site<L: Origin, G, C> {
    pub book: SharedBook<L>,
    pub limits: Limits,
    /// How the prints of the templates of posted mappings are escaped.
    pub escape: Escape,
    pub gate: G,
    /// By which the exchanges of a recording are timed.
    pub clock: C,
    /// How often a connection, or an exchange with an upstream, may read or write.
    pub turns: u64,
    pub routes: AdminRoutes,
    /// What `GET /__admin/page` is answered with, if it has a page.
    pub page: Option<Bytes>,
}
