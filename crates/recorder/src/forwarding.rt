// What is sent to a target for a request, and what is relayed of the reply to it.
ghost use Rattle.std.specs.Prelude.{◌≡◌, ◌≢◌, ◌⊎◌, List, ◌++◌, ◌∷◌, [], All, IsPermutation};
ghost use Rattle.std.specs.Prelude.{IfOk, OnOk, IsErrOf, false, codes, if◌then◌else◌, string_bytes};
ghost use Rattle.std.specs.Cmp.Lexicographic.{slice_cmp};
ghost use Rattle.std.specs.List.Sorted.{IsSortedByKey, IsStableByKey};
ghost use Rattle.std.specs.Ordering.{nat_cmp};
ghost use Rattle.http_header.specs.FieldName.{IsHeaderName};
ghost use Rattle.http_header.specs.FieldValue.{IsFieldValue, plain_value};
ghost use Rattle.http_header.specs.HeaderMap.{RefusesAppend, append, pairs};
ghost use Rattle.mapping_model.specs.declared.reply.ReplyHeader.{ReplyHeader as Line};
ghost use Rattle.mock_request.specs.Request.{Header, header_of, headers_of};
ghost use Rattle.recorder.specs.Forwarding.{AreSendable, IsRelayed, expects_content, forwarded_headers, forwarded_path};
ghost use Rattle.recorder.specs.Forwarding.{forwarded_url, is_left_out_of_reply, is_left_out_of_request};
ghost use Rattle.recorder.specs.Forwarding.{length_headers, map_of, own_headers, passed_back, IsField};
ghost use Rattle.recorder.specs.ForwardCount.{count_header, count_name};

use crate::connection::{is_of_reply_connection, is_of_request_connection};
use crate::forward_count::forward_count;
use crate::target::Target;
use http_header::{
    HeaderMap, HeaderMapError, HeaderName, HeaderNameError, HeaderValue, HeaderValueError,
    IntoHeaderName,
};
use itoa::Buffer;
use mapping_model::field_name::FieldName;
use mapping_model::reply::ReplyHeader;
use mock_request::snapshot::Snapshot;
use plain_text::items::Items;
use plain_text::octets::Octets;
use plain_text::text::Text;
use std::alloc::{AllocError, Global};

/// Why the headers of a request can't be sent.
#[derive(Clone, Copy, Debug, PartialEq, Eq)]
pub enum ForwardError {
    /// A name or a value that no header can have, or more headers than a map holds.
    Unsendable,
    OutOfMemory,
}

impl From<HeaderNameError> for ForwardError {
    ghost use Rattle.std.specs.Prelude.{◌≡◌, ◌↔◌};
    ghost use Rattle.recorder.specs.declared.forwarding.ForwardError.TheVariants.{Unsendable};
    ghost use Rattle.http_header.specs.declared.name.HeaderNameError.TheVariants.{Invalid};

    ghost from_gives = { λ error given. (given ≡ Unsendable) ↔ (error ≡ Invalid) };

    fn from(error: HeaderNameError) -> ForwardError {
        match error {
            HeaderNameError::Invalid => ForwardError::Unsendable,
            HeaderNameError::OutOfMemory => ForwardError::OutOfMemory,
        }
    }
}

impl From<HeaderValueError> for ForwardError {
    ghost use Rattle.std.specs.Prelude.{◌≡◌, ◌↔◌};
    ghost use Rattle.recorder.specs.declared.forwarding.ForwardError.TheVariants.{Unsendable};
    ghost use Rattle.http_header.specs.declared.value.HeaderValueError.TheVariants.{Invalid};

    ghost from_gives = { λ error given. (given ≡ Unsendable) ↔ (error ≡ Invalid) };

    fn from(error: HeaderValueError) -> ForwardError {
        match error {
            HeaderValueError::Invalid => ForwardError::Unsendable,
            HeaderValueError::OutOfMemory => ForwardError::OutOfMemory,
        }
    }
}

impl From<HeaderMapError> for ForwardError {
    ghost use Rattle.std.specs.Prelude.{◌≡◌, ◌↔◌};
    ghost use Rattle.recorder.specs.declared.forwarding.ForwardError.TheVariants.{Unsendable};
    ghost use Rattle.http_header.specs.declared.map.HeaderMapError.TheVariants.{MaxSizeReached};

    ghost from_gives = { λ error given. (given ≡ Unsendable) ↔ (error ≡ MaxSizeReached) };

    fn from(error: HeaderMapError) -> ForwardError {
        match error {
            HeaderMapError::MaxSizeReached => ForwardError::Unsendable,
            HeaderMapError::OutOfMemory => ForwardError::OutOfMemory,
        }
    }
}

/// The path and the query that the target is asked for.
pub fn forwarded_path(alloc: Global, target: &Target, url: &str) -> Result<String, AllocError>
    ensures { IfOk result (λ path. string_bytes path ≡ forwarded_path target.now url.now) }
{
    let prefix = target.prefix();
    let mut path = String::with_capacity(alloc, prefix.len().saturating_add(url.len()))?;
    path.push_str(prefix)?;
    path.push_str(url)?;
    Ok(path)
}

/// The absolute URL that the target is asked for, with its host and port as they are written.
pub fn forwarded_url(alloc: Global, target: &Target, url: &str) -> Result<String, AllocError>
    ensures { IfOk result (λ text. string_bytes text ≡ forwarded_url target.now url.now) }
{
    let mut text = String::from_str(alloc, "http://")?;
    text.push_str(target.authority())?;
    text.push_str(target.prefix())?;
    text.push_str(url)?;
    Ok(text)
}

/// The headers that are sent to the target for a request.
pub fn forwarded_headers(
    alloc: Global,
    target: &Target,
    request: &Snapshot,
) -> Result<HeaderMap, ForwardError>
    ensures value { IfOk result (λ headers. headers ≡ map_of (forwarded_headers target.now request.now)) }
    ensures unsendable { IsErrOf result ForwardError.Unsendable
        → ¬ (AreSendable (forwarded_headers target.now request.now)) }
{
    let mut headers = own_headers(alloc, target, request)?;
    for index in 0..request.header_count() {
        if let Some((name, value)) = request.header(index) {
            push_passed_on(alloc, &mut headers, request, name, value)?;
        }
    }
    Ok(headers)
}

// The headers that this program sets.
fn own_headers(
    alloc: Global,
    target: &Target,
    request: &Snapshot,
) -> Result<HeaderMap, ForwardError>
    ensures value { IfOk result (λ headers. headers ≡ map_of (own_headers target.now request.now)) }
    ensures unsendable { IsErrOf result ForwardError.Unsendable
        → (rest : List Header) → ¬ (AreSendable (own_headers target.now request.now ++ rest)) }
{
    let mut headers = HeaderMap::new(alloc);
    push(alloc, &mut headers, "host", target.authority().as_bytes())?;
    push_count(alloc, &mut headers, request)?;
    push_length(alloc, &mut headers, request.method(), request.body())?;
    Ok(headers)
}

// Says how often the request has been forwarded, this time as well.
fn push_count(
    alloc: Global,
    headers: &mut HeaderMap,
    request: &Snapshot,
) -> Result<(), ForwardError>
    ensures value { OnOk result (headers.new
        ≡ append headers.old count_name (plain_value (count_header request.now.headers).value)) }
    ensures unsendable { IsErrOf result ForwardError.Unsendable
        → ¬ (IsFieldValue (count_header request.now.headers).value) ⊎ RefusesAppend headers.old count_name }
{
    let mut buffer = Buffer::new();
    let count = buffer.format(forward_count(request) + 1);
    push(alloc, headers, "x-mock-forwarded", count.as_bytes())
}

// Says that there is no content where the method leads one to expect some.
fn push_length(
    alloc: Global,
    headers: &mut HeaderMap,
    method: &str,
    body: &[u8],
) -> Result<(), ForwardError>
    ensures value { OnOk result ((front : List Header) → headers.old ≡ map_of front
        → headers.new ≡ map_of (front ++ length_headers method.now body.now)) }
    ensures unsendable { IsErrOf result ForwardError.Unsendable
        → (length_headers method.now body.now ≢ []) × RefusesAppend headers.old (codes "content-length") }
{
    if body.is_empty() && expects_content(method) {
        push(alloc, headers, "content-length", b"0")?;
    }
    Ok(())
}

fn expects_content(method: &str) -> bool
    ensures { result ≡ expects_content method.now }
{
    method == "POST" || method == "PUT" || method == "PATCH"
}

// One more header of the request, unless it isn't passed on.
fn push_passed_on(
    alloc: Global,
    headers: &mut HeaderMap,
    request: &Snapshot,
    name: &str,
    value: &[u8],
) -> Result<(), ForwardError>
    requires { IsHeaderName name.now }
    ensures value { OnOk result (headers.new ≡ (if is_left_out_of_request request.now.headers name.now
        then headers.old
        else append headers.old name.now (plain_value value.now))) }
    ensures unsendable { IsErrOf result ForwardError.Unsendable → (is_left_out_of_request request.now.headers name.now ≡ false)
        × (¬ (IsFieldValue value.now) ⊎ RefusesAppend headers.old name.now) }
{
    if is_left_out_of_request(request, name) {
        return Ok(());
    }
    push(
        alloc,
        headers,
        HeaderName::from_bytes(alloc, name.as_bytes())?,
        value,
    )
}

fn push<K: IntoHeaderName>(
    alloc: Global,
    headers: &mut HeaderMap,
    name: K,
    value: &[u8],
) -> Result<(), ForwardError>
    requires { K.is_valid name }
    ensures value { OnOk result (headers.new ≡ append headers.old (K.name name) (plain_value value.now)) }
    ensures unsendable { IsErrOf result ForwardError.Unsendable
        → ¬ (IsFieldValue value.now) ⊎ RefusesAppend headers.old (K.name name) }
{
    headers.append(name, HeaderValue::from_bytes(alloc, value)?)?;
    Ok(())
}

fn is_left_out_of_request(request: &Snapshot, name: &str) -> bool
    ensures { result ≡ is_left_out_of_request request.now.headers name.now }
{
    name == "host"
        || name == "accept-encoding"
        || name == "x-mock-forwarded"
        || is_of_request_connection(request, name)
}

fn is_left_out_of_reply(received: &HeaderMap, name: &str) -> bool
    ensures { result ≡ is_left_out_of_reply (headers_of (pairs received.now)) name.now }
{
    name == "date" || is_of_reply_connection(received, name)
}

/// The headers of a reply that are relayed and recorded.
pub fn relayed_headers(
    alloc: Global,
    received: &HeaderMap,
) -> Result<Items<ReplyHeader>, AllocError>
    ensures { IfOk result (IsRelayed (headers_of (pairs received.now))) }
{
    let mut relayed = Vec::new(alloc);
    for (name, value) in received.iter() {
        push_relayed(alloc, &mut relayed, received, name, value)?;
    }
    sort(&mut relayed)?;
    Ok(Items::from(relayed))
}

// One more header of the reply, unless it isn't passed on.
fn push_relayed(
    alloc: Global,
    relayed: &mut Vec<ReplyHeader>,
    received: &HeaderMap,
    name: &HeaderName,
    value: &HeaderValue,
) -> Result<(), AllocError>
    ensures pushed { OnOk result (relayed.new.items
        ≡ relayed.old.items ++ passed_back (headers_of (pairs received.now)) (header_of (name.now, value.now) ∷ [])) }
    ensures fields { OnOk result (All IsField relayed.old.items → All IsField relayed.new.items) }
{
    if !is_left_out_of_reply(received, name.as_str()) {
        relayed.push(reply_header(alloc, name, value)?)?;
    }
    Ok(())
}

fn reply_header(
    alloc: Global,
    name: &HeaderName,
    value: &HeaderValue,
) -> Result<ReplyHeader, AllocError>
    ensures value { IfOk result (λ header. header ≡ record { name = name.now; value = value.now.bytes }) }
    ensures field { IfOk result IsField }
{
    let text = Text::from(String::from_str(alloc, name.as_str())?);
    let Some(name) = FieldName::new(text) else {
        unreachable!()
    };
    let value = Octets::from(value.as_bytes().to_vec(alloc)?);
    Ok(ReplyHeader { name, value })
}

// Puts the headers into the order of their names. Those of one name stay in their order.
fn sort(headers: &mut Vec<ReplyHeader>) -> Result<(), AllocError>
    ensures same { IsPermutation headers.old.items headers.new.items }
    ensures in_order { OnOk result
        (IsSortedByKey (λ (header : Line). header.name) (slice_cmp nat_cmp) headers.new.items) }
    ensures stable { IsStableByKey (λ (header : Line). header.name) (slice_cmp nat_cmp)
        headers.old.items headers.new.items }
{
    headers.sort_by(|one, other| one.name.as_str().cmp(other.name.as_str()))?;
    Ok(())
}
