// What forwards the requests of a server over connections.
ghost use Rattle.std.specs.Prelude.{◌≡◌, ◌↔◌, IsTrue, OnOk, true, false, Some};
ghost use Rattle.std.specs.declared.net.socket_addr.SocketAddr.{SocketAddr};
ghost use Rattle.proxy_client.specs.Address.{IsAddressOf};
ghost use Rattle.proxy_client.specs.Own.{ComesTo, IsOwnAddress, IsElsewhere};
ghost use Rattle.proxy_client.specs.Messages.{IsForwarded};
ghost use Rattle.proxy_client.specs.declared.stage.Stage.TheVariants.{Connecting};
ghost use Rattle.proxy_client.specs.declared.stage.Start.{Start as Begun};
ghost use Rattle.recorder.specs.ForwardCount.{is_forwarded_too_often};

use crate::address::address_of;
use crate::client::{Client, Exchange};
use crate::elsewhere::Elsewhere;
use crate::error::ProxyError;
use crate::failure::Failure;
use crate::forwards::Forwards;
use mock_request::snapshot::Snapshot;
use recorder::forward_count::is_forwarded_too_often;
use recorder::target::Target;
use std::alloc::AllocGlobal;
use std::net::{IpAddr, Net, SocketAddr};
use std::time::Clock;
use tokio::net::TcpStream;
use tokio::runtime::Handle;

/// Forwards requests over connections, each request over one of its own.
#[derive(Drop)]
pub struct Forwarder<R> {
    client: Client<R>,
    own: SocketAddr,
}

impl<R> Forwarder<R> {
    /// `own` is where the server itself listens: a request that is forwarded there would be forwarded again and again.
    pub fn new(client: Client<R>, own: SocketAddr) -> Forwarder<R>
        ensures client { result.client ≡ client }
        ensures own { result.own ≡ own }
    {
        Forwarder { client, own }
    }
}

impl<R: Clock + Net + AllocGlobal + Copy + Drop> Forwards for Forwarder<R> {
    type Exchange = Exchange<R, Elsewhere, TcpStream>;

    ghost sends = { λ target request exchange. (connecting : _) × (start : Begun)
        × (exchange.inner ≡ Connecting connecting (Some start)) × IsForwarded target request start.message };

    ghost reaches = { λ forwarder target. (address : SocketAddr)
        × IsAddressOf target address × IsElsewhere forwarder.own address };

    fn exchange(
        &self,
        handle: &Handle,
        target: &Target,
        request: &Snapshot,
    ) -> Result<Exchange<R, Elsewhere, TcpStream>, ProxyError> {
        let elsewhere = self.connect(handle, address_of(target), request)?;
        self.client.exchange(handle, elsewhere, target, request)
    }
}

impl<R: Clock + Net + AllocGlobal + Copy + Drop> Forwarder<R> {
    // Begins to connect to the address, where that is another server's, and the request may be forwarded once more.
    fn connect(
        &self,
        handle: &Handle,
        address: SocketAddr,
        request: &Snapshot,
    ) -> Result<Elsewhere, ProxyError>
        ensures elsewhere { OnOk result (IsElsewhere self.now.own address) }
        ensures often { OnOk result (is_forwarded_too_often request.now.headers ≡ false) }
    {
        if is_own(address, self.own) {
            return Err(ProxyError::UpstreamFailed(Failure::OwnTarget));
        }
        if is_forwarded_too_often(request) {
            return Err(ProxyError::UpstreamFailed(Failure::ForwardedTooOften));
        }
        Ok(Elsewhere::new(self.client.start(handle, address), self.own))
    }
}

// Whether a connection to that address comes to the server that listens there.
fn is_own(target: SocketAddr, own: SocketAddr) -> bool
    ensures own { result ≡ true → IsOwnAddress own target }
    ensures elsewhere { result ≡ false → IsElsewhere own target }
{
    target.port() == own.port() && comes_to(target.ip().to_canonical(), own.ip().to_canonical())
}

// A connection to an unspecified address, as 0.0.0.0, comes to the machine itself, and a server that listens at one is
// at the machine's loopback addresses, too.
fn comes_to(ip: IpAddr, own: IpAddr) -> bool
    ensures { IsTrue result ↔ ComesTo ip own }
{
    ip == own || ip.is_unspecified() || (ip.is_loopback() && own.is_unspecified())
}
