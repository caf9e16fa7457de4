// The parts of a target's text.
ghost use Rattle.std.specs.Prelude.{◌≡◌, ◌≢◌, ◌↔◌, ℕ, List, ◌++◌, codes, IsTrue, MatchOption};
ghost use Rattle.std.specs.List.{list_all};
ghost use Rattle.std.specs.Net.Grammar.{IsIpv4Text, IsIpv6Text};
ghost use Rattle.std.specs.declared.net.ipv4_addr.Ipv4Addr.{Ipv4Addr};
ghost use Rattle.std.specs.declared.net.ipv6_addr.Ipv6Addr.{Ipv6Addr};
ghost use Rattle.recorder.specs.Target.{scheme, after_scheme, authority_of, prefix_of, path_of, IsBracketed, IsHost};
ghost use Rattle.recorder.specs.Target.{is_prefix_byte, IsTarget, without_last_slash};

use mock_request::authority::host_and_port;
use std::net::{Ipv4Addr, Ipv6Addr};

pub(crate) fn is_target(text: &str) -> bool
    ensures { IsTrue result ↔ IsTarget text.now }
{
    let Some(rest) = after_scheme(text) else {
        return false;
    };
    let (authority, prefix) = split_prefix(rest);
    let (host, _port) = host_and_port(authority);
    is_host(host) && has_prefix_bytes(prefix)
}

pub(crate) fn after_scheme(text: &str) -> Option<&str>
    ensures { MatchOption result (text.now ≢ scheme ++ after_scheme text.now)
        (λ rest. (text.now ≡ scheme ++ after_scheme text.now) × (rest.now ≡ after_scheme text.now)) }
{
    text.strip_prefix("http://")
}

/// What is before the first slash, and what is after it.
pub(crate) fn split_prefix(rest: &str) -> (&str, &str)
    ensures authority { result.0.now ≡ authority_of rest.now }
    ensures prefix { result.1.now ≡ prefix_of rest.now }
{
    match rest.split_once('/') {
        Some((authority, prefix)) => (authority, prefix),
        None => (rest, ""),
    }
}

/// From the first slash on.
pub(crate) fn path(rest: &str) -> &str
    ensures { result.now ≡ path_of rest.now }
{
    let (authority, _prefix) = split_prefix(rest);
    match rest.strip_prefix(authority) {
        Some(path) => path,
        None => unreachable!(),
    }
}

pub(crate) fn without_last_slash(path: &str) -> &str
    ensures { result.now ≡ without_last_slash path.now }
{
    match path.strip_suffix('/') {
        Some(front) => front,
        None => path,
    }
}

fn is_host(host: &str) -> bool
    ensures { IsTrue result ↔ IsHost host.now }
{
    host == "localhost" || is_ipv4(host) || is_bracketed(host)
}

fn is_ipv4(host: &str) -> bool
    ensures { IsTrue result ↔ ((a : Ipv4Addr) × IsIpv4Text host.now a) }
{
    Ipv4Addr::parse_ascii(host.as_bytes()).is_ok()
}

fn is_ipv6(text: &str) -> bool
    ensures { IsTrue result ↔ ((a : Ipv6Addr) × IsIpv6Text text.now a) }
{
    Ipv6Addr::parse_ascii(text.as_bytes()).is_ok()
}

fn is_bracketed(host: &str) -> bool
    ensures { IsTrue result ↔ IsBracketed host.now }
{
    matches!(in_brackets(host), Some(inner) if is_ipv6(inner))
}

/// What is between the brackets that the host is in, if it is.
pub fn in_brackets(host: &str) -> Option<&str>
    ensures { MatchOption result ((inner : List ℕ) → host.now ≢ codes "[" ++ (inner ++ codes "]"))
        (λ inner. host.now ≡ codes "[" ++ (inner.now ++ codes "]")) }
{
    host.strip_prefix('[')?.strip_suffix(']')
}

fn has_prefix_bytes(prefix: &str) -> bool
    ensures { result ≡ list_all is_prefix_byte prefix.now }
{
    prefix.as_bytes().iter().all(|byte| is_prefix_byte(*byte))
}

fn is_prefix_byte(byte: u8) -> bool
    ensures { result ≡ is_prefix_byte byte }
{
    byte > b' ' && byte < 127 && byte != b'?' && byte != b'#'
}
