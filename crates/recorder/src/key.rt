// By what requests are grouped.
ghost use Rattle.std.specs.Prelude.{◌≡◌, ◌++◌, fold, IfOk, OnOk};
ghost use Rattle.std.specs.Cmp.{partial_equiv_from_equiv};
ghost use Rattle.std.specs.Cmp.Lexicographic.{pointwise};
ghost use Rattle.std.specs.Hash.{slice as slice_writes};
ghost use Rattle.std.specs.Str.{str_eq_ignore_ascii_case};
ghost use Rattle.recorder.specs.Key.{key_of, headers_named, fields_of, same_header, same_key};
ghost use Rattle.recorder.specs.Inner.Keys.{bytes_writes, header_writes, key_writes, same_key_laws, key_Alike};

use crate::exchange::Exchange;
use mock_request::snapshot::Snapshot;
use plain_text::text::Text;
use std::alloc::{AllocError, Global};
use std::hash::{Hash, Hasher};
use std::marker::Model;

/// By what requests are grouped, which contracts see as its parts. It lends the parts of the request.
#[derive(Drop)]
pub struct Key<'a> {
    method: &'a str,
    url: &'a str,
    // For each captured name its headers.
    headers: Vec<(&'a str, &'a [u8])>,
    body: &'a [u8],
}

impl<'a> Model for Key<'a> {
    ghost use Rattle.recorder.specs.Key.{KeyParts, fields_of};

    ghost Value = { KeyParts };

    ghost view = { λ k. record {
      method = k.method.now;
      url = k.url.now;
      headers = fields_of k.headers.items;
      body = k.body.now;
    } };
}

impl<'a> Key<'a> {
    pub fn method(&self) -> &str
        ensures { result.now ≡ self.now.method }
    {
        self.method
    }

    pub fn url(&self) -> &str
        ensures { result.now ≡ self.now.url }
    {
        self.url
    }

    /// For each captured name the headers of that name, in their order.
    pub fn headers(&self) -> &[(&'a str, &'a [u8])]
        ensures { fields_of result.now ≡ self.now.headers }
    {
        self.headers.as_slice()
    }

    pub fn body(&self) -> &[u8]
        ensures { result.now ≡ self.now.body }
    {
        self.body
    }
}

impl<'a> PartialEq for Key<'a> {
    ghost eq = { same_key };

    ghost laws = { partial_equiv_from_equiv same_key_laws };

    fn eq(&self, other: &Key<'a>) -> bool {
        self.method == other.method
            && self.url == other.url
            && same_headers(self.headers.as_slice(), other.headers.as_slice())
            && self.body == other.body
    }
}

impl<'a> Eq for Key<'a> {
    ghost laws = { same_key_laws };
}

impl<'a> Hash for Key<'a> {
    ghost hash_input = { key_writes };

    ghost respects_eq = { key_Alike.fed };

    fn hash<H: Hasher>(&self, state: &mut H) {
        write_bytes(self.method.as_bytes(), state);
        write_bytes(self.url.as_bytes(), state);
        write_headers(self.headers.as_slice(), state);
        write_bytes(self.body, state);
    }
}

fn same_headers(a: &[(&str, &[u8])], b: &[(&str, &[u8])]) -> bool
    ensures { result ≡ pointwise same_header (fields_of a.now) (fields_of b.now) }
{
    a == b
}

fn write_headers<H: Hasher>(headers: &[(&str, &[u8])], state: &mut H)
    ensures { state.new ≡ fold H.write state.old (slice_writes header_writes (fields_of headers.now)) }
{
    state.write_usize(headers.len());
    for index in 0..headers.len() {
        let (name, value) = headers[index];
        write_bytes(name.as_bytes(), state);
        write_bytes(value, state);
    }
}

// The length and then the bytes, all in one write: std's hash of a slice writes each byte on its own.
fn write_bytes<H: Hasher>(bytes: &[u8], state: &mut H)
    ensures { state.new ≡ fold H.write state.old (bytes_writes bytes.now) }
{
    state.write_usize(bytes.len());
    state.write(bytes);
}

/// The key of an exchange's request.
pub fn key_of<'a>(
    alloc: Global,
    exchange: &'a Exchange,
    captured: &[Text],
) -> Result<Key<'a>, AllocError>
    ensures { IfOk result (λ key. key ≡ key_of exchange.now.request captured.now) }
{
    let request = &exchange.request;
    let mut headers = Vec::new(alloc);
    for name in captured {
        push_named(&mut headers, request, name.as_str())?;
    }
    Ok(Key {
        method: request.method(),
        url: request.url(),
        headers,
        body: request.body(),
    })
}

/// Whether a header has that name; names of headers have no case (RFC 9110, 5.1).
pub fn is_named(header: &str, name: &str) -> bool
    ensures { result ≡ str_eq_ignore_ascii_case name.now header.now }
{
    name.eq_ignore_ascii_case(header)
}

// Appends the headers of that name.
fn push_named<'a>(
    headers: &mut Vec<(&'a str, &'a [u8])>,
    request: &'a Snapshot,
    name: &str,
) -> Result<(), AllocError>
    ensures { OnOk result (fields_of headers.new.items
        ≡ fields_of headers.old.items ++ headers_named name.now request.now.headers) }
{
    for index in 0..request.header_count() {
        if let Some((header, value)) = request.header(index) {
            if is_named(header, name) {
                headers.push((header, value))?;
            }
        }
    }
    Ok(())
}
