// Connections that don't come back to the server that makes them.
ghost use Rattle.std.specs.Prelude.{◌≡◌, true, false};
ghost use Rattle.std.specs.declared.net.socket_addr.SocketAddr.{SocketAddr};
ghost use Rattle.proxy_client.specs.Own.{AreOwnEnds, AreOtherEnds};

use futures::task::{Context, Poll};
use futures::{Future, ready};
use std::io;
use std::net::SocketAddr;
use tokio::net::{ConnectFuture, TcpStream};

/// What the system says of a path that comes back to itself: here of a connection to the server that makes it.
pub(crate) const LOOP: i32 = libc::ELOOP;

/// Connects, and fails where the connection comes to the server itself, whichever of the machine's addresses it goes
/// to: then its two ends have one address, and its peer has the server's port. Nothing was sent over it.
#[derive(Drop)]
pub struct Elsewhere {
    connect: ConnectFuture,
    own: SocketAddr,
}

impl Elsewhere {
    /// `own` is where the server listens.
    pub fn new(connect: ConnectFuture, own: SocketAddr) -> Elsewhere {
        Elsewhere { connect, own }
    }
}

impl Future for Elsewhere {
    type Output = io::Result<TcpStream>;

    fn poll(&mut self, cx: &mut Context<'_>) -> Poll<io::Result<TcpStream>> {
        let stream = match ready!(self.connect.poll(cx)) {
            Ok(stream) => stream,
            Err(error) => return Poll::Ready(Err(error)),
        };
        if comes_back(&stream, self.own) {
            return Poll::Ready(Err(io::Error::from_raw_os_error(LOOP)));
        }
        Poll::Ready(Ok(stream))
    }
}

// Where the system doesn't say which addresses the ends have, there is nothing to go by.
fn comes_back(stream: &TcpStream, own: SocketAddr) -> bool {
    matches!((stream.local_addr(), stream.peer_addr()), (Ok(local), Ok(peer)) if are_own_ends(local, peer, own))
}

// Whether these are the ends of a connection that the server has with itself.
fn are_own_ends(local: SocketAddr, peer: SocketAddr, own: SocketAddr) -> bool
    ensures own { result ≡ true → AreOwnEnds own local peer }
    ensures others { result ≡ false → AreOtherEnds own local peer }
{
    peer.port() == own.port() && local.ip().to_canonical() == peer.ip().to_canonical()
}
