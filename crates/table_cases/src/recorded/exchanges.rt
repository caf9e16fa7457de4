//! The exchanges that a row gives, cell by cell: a word, a blank and a text.

use bytes::Bytes;
use case_table::octets::octets_of;
use case_table::requests::{header, request};
use case_table::row::Row;
use case_table::words::{number, parts};
use http_header::{HeaderName, HeaderValue};
use mapping_model::field_name::FieldName;
use mapping_model::reply::{Reply, ReplyHeader};
use plain_text::items::Items;
use plain_text::octets::Octets;
use plain_text::text::Text;
use recorder::exchange::{Exchange, SharedExchange};
use recorder::target::Target;
use std::alloc::{AllocError, Global};

/// What a row gives. A cell that can't be read counts as one for which memory didn't suffice.
#[derive(Drop)]
pub struct Given {
    pub captured: Vec<Text>,
    pub repeats: bool,
    pub number: u64,
    pub target: Option<Target>,
    pub exchanges: Vec<SharedExchange>,
}

// The exchange that is being read.
#[derive(Drop)]
struct Draft {
    method: String,
    url: String,
    headers: Vec<(HeaderName, HeaderValue)>,
    body: Vec<u8>,
    status: u16,
    lines: Vec<ReplyHeader>,
    reply_body: Vec<u8>,
    started_ms: u64,
    wait_ms: u64,
}

/// The cells before the first exchange are settings; those after an exchange, up to the next one, are its parts.
pub fn read(alloc: Global, row: &Row) -> Result<Given, AllocError> {
    let mut given = nothing(alloc);
    let cells = row.given.as_slice();
    for index in 0..cells.len() {
        let (word, text) = parts(cells[index].as_str());
        if word == "exchange" {
            given
                .exchanges
                .push(read_exchange(alloc, text, &cells[index + 1..])?)?;
        } else if given.exchanges.is_empty() {
            set(alloc, &mut given, word, text)?;
        }
    }
    Ok(given)
}

fn nothing(alloc: Global) -> Given {
    Given {
        captured: Vec::new(alloc),
        repeats: false,
        number: 0,
        target: None,
        exchanges: Vec::new(alloc),
    }
}

fn set(alloc: Global, given: &mut Given, word: &str, text: &str) -> Result<(), AllocError> {
    match word {
        "captured" => given
            .captured
            .push(Text::from(String::from_str(alloc, text)?))?,
        "repeats" => given.repeats = text == "yes",
        "number" => given.number = number(text),
        "target" => given.target = Target::parse(alloc, text).ok(),
        _ => return Err(AllocError),
    }
    Ok(())
}

fn read_exchange(
    alloc: Global,
    text: &str,
    parts: &[String],
) -> Result<SharedExchange, AllocError> {
    let mut draft = begun(alloc, text)?;
    for cell in parts {
        if !is_added(alloc, &mut draft, cell.as_str())? {
            break;
        }
    }
    finished(alloc, draft)
}

fn begun(alloc: Global, text: &str) -> Result<Draft, AllocError> {
    let (method, url) = text.split_once(' ').unwrap_or((text, "/"));
    Ok(Draft {
        method: String::from_str(alloc, method)?,
        url: String::from_str(alloc, url)?,
        headers: Vec::new(alloc),
        body: Vec::new(alloc),
        status: 0,
        lines: Vec::new(alloc),
        reply_body: Vec::new(alloc),
        started_ms: 0,
        wait_ms: 0,
    })
}

// False where the next exchange begins.
fn is_added(alloc: Global, draft: &mut Draft, cell: &str) -> Result<bool, AllocError> {
    let (word, text) = parts(cell);
    match word {
        "exchange" => return Ok(false),
        "header" => draft.headers.push(read_header(alloc, text)?)?,
        "body" => draft.body = octets_of(alloc, text)?,
        "reply" => draft.status = text.parse::<u16>().unwrap_or(0),
        "reply-header" => draft.lines.push(line(alloc, text)?)?,
        "reply-body" => draft.reply_body = octets_of(alloc, text)?,
        "started" => draft.started_ms = number(text),
        "wait" => draft.wait_ms = number(text),
        _ => return Err(AllocError),
    }
    Ok(true)
}

fn read_header(alloc: Global, text: &str) -> Result<(HeaderName, HeaderValue), AllocError> {
    let (name, value) = parts(text);
    header(alloc, name, octets_of(alloc, value)?.as_slice())
}

fn line(alloc: Global, text: &str) -> Result<ReplyHeader, AllocError> {
    let (name, value) = parts(text);
    Ok(ReplyHeader {
        name: field_name(alloc, name)?,
        value: Octets::from(octets_of(alloc, value)?),
    })
}

fn field_name(alloc: Global, name: &str) -> Result<FieldName, AllocError> {
    FieldName::new(Text::from(String::from_str(alloc, name)?)).ok_or(AllocError)
}

fn finished(alloc: Global, draft: Draft) -> Result<SharedExchange, AllocError> {
    let request = request(
        alloc,
        draft.method.as_str(),
        draft.url.as_str(),
        draft.headers.as_slice(),
        draft.body.as_slice(),
    )?;
    let reply = Reply {
        status: draft.status,
        headers: Items::from(draft.lines),
        body: Bytes::copy_from_slice(alloc, draft.reply_body.as_slice())?,
    };
    SharedExchange::new(
        alloc,
        Exchange {
            request,
            reply,
            started_ms: draft.started_ms,
            wait_ms: draft.wait_ms,
        },
    )
}
