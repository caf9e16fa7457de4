// Of which exchanges a recording makes no mappings, and why.
use crate::request_log::SHOWN;
use itoa::Buffer;
use mapping_diagnosis::shown::{cut, quoted};
use mapping_model::header_lines::HEADER_LIMIT;
use mapping_model::reply::Reply;
use mock_request::snapshot::Snapshot;
use plain_text::text::Text;
use recorder::exchange::Exchange;
use recorder::key::is_named;
use recorder::recording::Session;
use std::alloc::{AllocError, Global};
use std::str;

/// Why no mapping is made of an exchange.
#[derive(Clone, Copy)]
enum Reason<'a> {
    /// The request has more than one captured header of that name.
    SeveralHeaders(&'a str),
    /// A captured header of that name isn't UTF-8.
    NoText(&'a str),
    /// A header of the reply, of that name, isn't UTF-8.
    NoReplyText(&'a str),
    /// The reply has so many headers.
    TooManyHeaders(usize),
    Status(u16),
}

/// A line for each exchange of which no mapping is made, with its index in the recording, from 1.
pub(crate) fn skipped_lines(alloc: Global, session: &Session) -> Result<String, AllocError> {
    let mut lines = String::new(alloc);
    let exchanges = session.exchanges.as_slice();
    for index in 0..exchanges.len() {
        let exchange = exchanges[index].exchange();
        if let Some(reason) = reason_of(exchange, session.captured.as_slice()) {
            push_line(
                alloc,
                &mut lines,
                index.saturating_add(1),
                &exchange.request,
                reason,
            )?;
        }
    }
    Ok(lines)
}

fn push_line(
    alloc: Global,
    lines: &mut String,
    place: usize,
    request: &Snapshot,
    reason: Reason<'_>,
) -> Result<(), AllocError> {
    lines.push_str("skipped exchange ")?;
    lines.push_str(Buffer::new().format(place))?;
    lines.push_str(", ")?;
    lines.push_str(cut(alloc, request.method(), SHOWN)?.as_str())?;
    lines.push_str(" ")?;
    lines.push_str(cut(alloc, request.url(), SHOWN)?.as_str())?;
    lines.push_str(": ")?;
    push_reason(alloc, lines, reason)?;
    lines.push_str("\n")
}

fn push_reason(alloc: Global, lines: &mut String, reason: Reason<'_>) -> Result<(), AllocError> {
    match reason {
        Reason::SeveralHeaders(name) => {
            lines.push_str("the request has the captured header ")?;
            lines.push_str(quoted(alloc, name)?.as_str())?;
            lines.push_str(" more than once")
        }
        Reason::NoText(name) => {
            lines.push_str("the captured header ")?;
            lines.push_str(quoted(alloc, name)?.as_str())?;
            lines.push_str(" isn't UTF-8")
        }
        Reason::NoReplyText(name) => {
            lines.push_str("the reply's header ")?;
            lines.push_str(quoted(alloc, name)?.as_str())?;
            lines.push_str(" isn't UTF-8")
        }
        Reason::TooManyHeaders(count) => {
            lines.push_str("the reply has ")?;
            lines.push_str(Buffer::new().format(count))?;
            lines.push_str(" headers, more than a response may have")
        }
        Reason::Status(status) => {
            lines.push_str("the reply's status is ")?;
            lines.push_str(Buffer::new().format(status))?;
            lines.push_str(", outside 200 to 599")
        }
    }
}

// None where a mapping is made of it.
fn reason_of<'a>(exchange: &'a Exchange, captured: &'a [Text]) -> Option<Reason<'a>> {
    for name in captured {
        if let Some(reason) = reason_of_name(&exchange.request, name.as_str()) {
            return Some(reason);
        }
    }
    reason_of_reply(&exchange.reply)
}

fn reason_of_name<'a>(request: &Snapshot, name: &'a str) -> Option<Reason<'a>> {
    let mut count = 0u64;
    for index in 0..request.header_count() {
        if let Some((header, value)) = request.header(index) {
            if is_named(header, name) {
                if str::from_utf8(value).is_err() {
                    return Some(Reason::NoText(name));
                }
                count = count.saturating_add(1);
            }
        }
    }
    if count > 1 {
        return Some(Reason::SeveralHeaders(name));
    }
    None
}

fn reason_of_reply(reply: &Reply) -> Option<Reason<'_>> {
    let headers = reply.headers.as_slice();
    for header in headers {
        if str::from_utf8(header.value.as_slice()).is_err() {
            return Some(Reason::NoReplyText(header.name.as_str()));
        }
    }
    if headers.len() > HEADER_LIMIT {
        return Some(Reason::TooManyHeaders(headers.len()));
    }
    if reply.status < 200 || reply.status > 599 {
        return Some(Reason::Status(reply.status));
    }
    None
}
