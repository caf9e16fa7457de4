// How far a request has come.
use http::Response;

/// A request's answer; or the exchange that forwards it, for one whose reply is still to come.
#[derive(Drop)]
pub enum Progress<E, C> {
    Answered(Response<C>),
    /// In a box, since most requests are answered at once.
    Pending(Box<E>),
}
