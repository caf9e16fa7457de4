// The address of an upstream.
ghost use Rattle.std.specs.Prelude.{◌≡◌, ℕ, List, ◌++◌, codes, MatchOption};
ghost use Rattle.std.specs.Net.Grammar.{IsIpv6Text};
ghost use Rattle.recorder.specs.Target.{IsBracketed, IsHost};
ghost use Rattle.proxy_client.specs.Address.{IsAddressOf, IsIpOf};

use recorder::target::{Target, in_brackets};
use std::net::{IpAddr, Ipv4Addr, Ipv6Addr, SocketAddr};

/// The address of an upstream; each upstream has one.
pub fn address_of(target: &Target) -> SocketAddr
    ensures { IsAddressOf target.now result }
{
    match ip_of(target.host()) {
        Some(ip) => SocketAddr::new(ip, target.port()),
        None => {
            // Its text is that of an upstream, so its host has an address.
            let _text = target.as_str();
            unreachable!()
        }
    }
}

// None where the text isn't a host.
fn ip_of(host: &str) -> Option<IpAddr>
    ensures { MatchOption result (¬ (IsHost host.now)) (IsIpOf host.now) }
{
    if host == "localhost" {
        return Some(IpAddr::V4(Ipv4Addr::new(127, 0, 0, 1)));
    }
    match Ipv4Addr::parse_ascii(host.as_bytes()) {
        Ok(address) => Some(IpAddr::V4(address)),
        Err(_error) => Some(IpAddr::V6(bracketed_ip(host)?)),
    }
}

fn bracketed_ip(host: &str) -> Option<Ipv6Addr>
    ensures { MatchOption result (¬ (IsBracketed host.now)) (λ address.
        (inner : List ℕ) × (host.now ≡ codes "[" ++ (inner ++ codes "]")) × IsIpv6Text inner address) }
{
    match Ipv6Addr::parse_ascii(in_brackets(host)?.as_bytes()) {
        Ok(address) => Some(address),
        Err(_error) => None,
    }
}
