// Which exchanges can be mappings.
ghost use Rattle.std.specs.Prelude.{◌≡◌, length, IfOk, nat_le, ◌&&◌};
ghost use Rattle.std.specs.List.{list_all};
ghost use Rattle.std.specs.Str.{is_utf8};
ghost use Rattle.recorder.specs.Key.{headers_named};
ghost use Rattle.recorder.specs.Stubs.{can_be_response, is_kept, is_text_once, kept_of};
ghost use Rattle.recorded_stubs.specs.Inner.Lent.{lent};

use crate::utf8::is_utf8;
use mapping_model::header_lines::HEADER_LIMIT;
use mapping_model::reply::{Reply, ReplyHeader};
use mock_request::snapshot::Snapshot;
use plain_text::text::Text;
use recorder::exchange::{Exchange, SharedExchange};
use recorder::key::is_named;
use std::alloc::{AllocError, Global};

/// The exchanges that can be mappings.
pub(crate) fn kept_of<'a>(
    alloc: Global,
    exchanges: &'a [SharedExchange],
    captured: &[Text],
) -> Result<Vec<&'a Exchange>, AllocError>
    ensures { IfOk result (λ kept. lent kept.items ≡ kept_of captured.now exchanges.now) }
{
    let mut kept = Vec::new(alloc);
    for shared in exchanges {
        let exchange = shared.exchange();
        if is_kept(exchange, captured) {
            kept.push(exchange)?;
        }
    }
    Ok(kept)
}

// No captured header comes twice, what becomes text is UTF-8, and the reply can be a response.
fn is_kept(exchange: &Exchange, captured: &[Text]) -> bool
    ensures { result ≡ is_kept captured.now exchange.now }
{
    are_texts_once(&exchange.request, captured) && can_be_response(&exchange.reply)
}

fn are_texts_once(request: &Snapshot, names: &[Text]) -> bool
    ensures { result ≡ list_all (λ name. is_text_once (headers_named name request.now.headers)) names.now }
{
    names
        .iter()
        .all(|name| is_text_once(request, name.as_str()))
}

// There is one header of that name at most, and its value is UTF-8.
fn is_text_once(request: &Snapshot, name: &str) -> bool
    ensures { result ≡ is_text_once (headers_named name.now request.now.headers) }
{
    named_count(request, name) <= 1 && are_texts(request, name)
}

fn named_count(request: &Snapshot, name: &str) -> usize
    ensures { result ≡ length (headers_named name.now request.now.headers) }
{
    let mut count = 0;
    for index in 0..request.header_count() {
        if let Some((header, _value)) = request.header(index) {
            if is_named(header, name) {
                count += 1;
            }
        }
    }
    count
}

fn are_texts(request: &Snapshot, name: &str) -> bool
    ensures { result ≡ list_all (λ header. is_utf8 header.value) (headers_named name.now request.now.headers) }
{
    let mut are_texts = true;
    for index in 0..request.header_count() {
        if let Some((header, value)) = request.header(index) {
            if is_named(header, name) {
                are_texts &= is_utf8(value);
            }
        }
    }
    are_texts
}

fn can_be_response(reply: &Reply) -> bool
    ensures { result ≡ can_be_response reply.now }
{
    let lines = reply.headers.as_slice();
    are_text_lines(lines) && lines.len() <= HEADER_LIMIT && is_status(reply.status)
}

fn are_text_lines(lines: &[ReplyHeader]) -> bool
    ensures { result ≡ list_all (λ line. is_utf8 line.value) lines.now }
{
    lines.iter().all(|line| is_utf8(line.value.as_slice()))
}

fn is_status(status: u16) -> bool
    ensures { result ≡ (nat_le 200 status && nat_le status 599) }
{
    status >= 200 && status <= 599
}
