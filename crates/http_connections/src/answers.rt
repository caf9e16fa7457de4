// What the connections of a server are served by.
ghost use Rattle.std.specs.Prelude.{◌≡◌, List, ℕ, Option, Result, IfErr, IfOk};
ghost use Rattle.http.specs.declared.request.Request.{Request as Message};
ghost use Rattle.http.specs.declared.response.Response.{Response as Answer};
ghost use Rattle.http_connections.specs.Sent.{IsProgress};
ghost use Rattle.http_messages.specs.declared.error.ServiceError.TheVariants.{OutOfMemory};

use crate::request::progress::Progress;
use bytes::Bytes;
use futures::Future;
use http::{Request, Response};
use http_messages::error::ServiceError;
use std::alloc::Global;
use std::sync::Wait;
use tokio::runtime::Handle;

/// Answers the requests of connections, each of which has a seat of its own. A request that is forwarded is answered in
/// two calls; its exchange runs between them, without the seat. What is said of a call speaks of who answers, and of
/// the seat before and after it.
pub trait Answers: Drop {
    type Seat: Drop;

    /// The number of a seat, which no other has.
    ghost number_of: { Self.Seat → ℕ };

    /// What comes of forwarding a request.
    type Reply: Drop;

    /// Forwards a request.
    type Exchange: Future<Output = Self::Reply>;

    /// The content of an answer. Its default has no bytes.
    type Content: Default + Drop;

    /// It may give this answer to the message, by the call that ends with that: of a message that was forwarded, the
    /// seats are those of the second call.
    ghost gives: { Self → Self.Seat → Self.Seat → Message (List ℕ) → Answer Self.Content → Type 0 };

    /// It may forward the message by this exchange.
    ghost forwards: { Self → Self.Seat → Self.Seat → Message (List ℕ) → Self.Exchange → Type 0 };

    /// It may give this answer to what came of an exchange, whichever message that was for.
    ghost finishes: { Self → Self.Seat → Self.Seat → Self.Reply → Answer Self.Content → Type 0 };

    /// It may leave the seat so where there is no answer to the message.
    ghost unanswered: { Self → Self.Seat → Self.Seat → Message (List ℕ) → Type 0 };

    /// It may leave the seat so where there is no answer to a message that was forwarded.
    ghost unfinished: { Self → Self.Seat → Self.Seat → Type 0 };

    /// The seat may be split so.
    ghost splits: { Self → Self.Seat → Self.Seat → Option Self.Seat → Type 0 };

    /// The seat may take over another one so.
    ghost joins: { Self → Self.Seat → Self.Seat → Self.Seat → Result (Unit {0}) Self.Seat → Type 0 };

    fn number(seat: &Self::Seat) -> u64
        ensures { result ≡ number_of seat.now };

    /// The answer to a request whose body has come, or the exchange that forwards it, which the runtime of this handle
    /// drives. An error is out of memory for the answer itself.
    fn begin<R: Wait>(
        &self,
        rt: &R,
        alloc: Global,
        handle: &Handle,
        seat: &mut Self::Seat,
        request: &Request<Bytes>,
    ) -> Result<Progress<Self::Exchange, Self::Content>, ServiceError>
        ensures ok { IfOk result (IsProgress (gives self.now seat.old seat.new) (forwards self.now seat.old seat.new)
            Self.Exchange.can_poll request.now) }
        ensures err { IfErr result (λ error. (error ≡ OutOfMemory)
            × unanswered self.now seat.old seat.new request.now) };

    /// The answer to a request that was forwarded by this seat, once its exchange has given what came of it. An error
    /// is out of memory for the answer itself.
    fn finish<R: Wait>(
        &self,
        rt: &R,
        alloc: Global,
        seat: &mut Self::Seat,
        reply: Self::Reply,
    ) -> Result<Response<Self::Content>, ServiceError>
        ensures ok { (message : _) (old : _) (new : _) (exchange : _) → number_of old ≡ number_of seat.old
            → forwards self.now old new message exchange → Self.Exchange.gives exchange reply
            → IfOk result (gives self.now seat.old seat.new message) }
        ensures by_reply { IfOk result (finishes self.now seat.old seat.new reply) }
        ensures err { IfErr result (λ error. (error ≡ OutOfMemory) × unfinished self.now seat.old seat.new) };

    /// A new seat for a connection, `None` where the seat can't be split.
    fn split<R: Wait>(&self, rt: &R, seat: &mut Self::Seat) -> Option<Self::Seat>
        ensures { splits self.now seat.old seat.new result };

    /// Takes over the seat of a connection that has ended, or hands it back where memory runs out.
    fn join<R: Wait>(
        &self,
        rt: &R,
        seat: &mut Self::Seat,
        other: Self::Seat,
    ) -> Result<(), Self::Seat>
        ensures { joins self.now seat.old other seat.new result };
}
