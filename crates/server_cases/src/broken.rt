//! Connections whose peer goes away, or fails, at each place in turn.
ghost use Rattle.std.specs.Prelude.{◌≡◌, ◌<◌, ◌∷◌, []};
ghost use Rattle.shared_history.specs.Entries.{opening};

use crate::calls;
use crate::no_clock::NoClock;
use crate::no_log::NoLog;
use crate::nowhere::Nowhere;
use crate::scripted_io::{Script, ScriptedIo};
use admin_routes::router::AdminRoutes;
use answering::site::Site;
use bytes::Bytes;
use case_table::mappings::mapping;
use http_connections::serve_io::serve_io;
use hyper_service::journal_limit::JournalLimit;
use hyper_service::site_answers::SiteAnswers;
use shared_book::gate::NoGate;
use shared_book::history::OpenedHistory;
use shared_book::origin::Origin;
use shared_book::seat::Seat;
use shared_book::shared_book::{SharedBook, open_history};
use std::alloc::{AllocError, AllocGlobal, Global};
use std::marker::Brand;
use std::random::RandomSource;
use std::sync::ledger::Blank;
use std::sync::{Arc, Wait};
use std::time::Clock;
use stub_book::book::Book;
use stub_response::limits::Limits;
use template_tree::escape::Escape;
use tokio::runtime::LocalRuntime;

/// Into how many parts each ledger is cut.
const PARTS: u64 = 16;

/// The turns of a connection, where a case isn't about them.
const TURNS: u64 = 1_000;

const MAPPING: &str = "{\"scenarioName\":\"s\",\"newScenarioState\":\"done\",
\"request\":{\"method\":\"POST\",\"urlPath\":\"/todo\"},
\"response\":{\"status\":201,\"headers\":{\"X-Line\":\"{{request.query.q}}\"},
\"body\":\"{{request.body}} {{request.path}}\",\"transformers\":[\"response-template\"]}}";

const REQUEST: &str =
    "POST /todo?q=a%20b HTTP/1.1\r\nHost: mock.test\r\nAccept: text/plain\r\nContent-Length: 4\r\n\r\nmilk";

const ANSWER: &str = "HTTP/1.1 201 Created\r\nx-line: a b\r\ncontent-length: 10\r\n\r\nmilk /todo";

/// What a request whose content is cut is answered.
const REFUSED: &str = "HTTP/1.1 400 Bad Request\r\nconnection: close\r\ncontent-length: 0\r\n\r\n";

/// What a peer does that sends the request.
#[derive(Clone, Copy)]
pub enum Peer {
    /// Pieces of 1 to 32 bytes come and go.
    Pieces,
    /// The input ends after each byte.
    StopsSending,
    /// Nothing comes after each byte, until the turns are used up.
    FallsSilent,
    /// It is gone after each byte that it takes.
    StopsTaking,
    /// Each read fails, and the next one would not.
    FailingReads,
    FailingWrites,
    /// There are 0 to 254 turns, and always an even number.
    Turns,
}

impl Peer {
    fn name(self) -> &'static str {
        match self {
            Peer::Pieces => "a peer that sends pieces of each size",
            Peer::StopsSending => "a peer that stops sending",
            Peer::FallsSilent => "a peer that falls silent",
            Peer::StopsTaking => "a peer that stops taking",
            Peer::FailingReads => "a read that fails",
            Peer::FailingWrites => "a write that fails",
            Peer::Turns => "turns that end",
        }
    }

    // How many connections it makes.
    fn connections(self) -> usize {
        match self {
            Peer::Pieces => 32,
            Peer::StopsSending | Peer::FallsSilent => REQUEST.len() + 1,
            Peer::StopsTaking | Peer::FailingWrites => ANSWER.len() + 1,
            Peer::FailingReads => REQUEST.len() + 2,
            Peer::Turns => 128,
        }
    }

    // What it sends over the connection with that index.
    fn input(self, index: usize) -> &'static [u8] {
        let end = match self {
            Peer::StopsSending | Peer::FallsSilent => index.min(REQUEST.len()),
            _ => REQUEST.len(),
        };
        let (front, _rest) = REQUEST.as_bytes().split_at(end);
        front
    }

    // A read or a write moves one byte unless the case is about their size.
    fn script(self, index: usize) -> Script {
        let mut script = Script {
            piece: 1,
            awaits: 0,
            takes: ANSWER.len().max(REFUSED.len()),
            is_silent: false,
            failing_read: None,
            failing_write: None,
        };
        let number = (index as u64).saturating_add(1);
        match self {
            Peer::Pieces => script.piece = index.saturating_add(1),
            Peer::FallsSilent => script.is_silent = true,
            Peer::StopsTaking => script.takes = index,
            Peer::FailingReads => script.failing_read = Some(number),
            Peer::FailingWrites => script.failing_write = Some(number),
            Peer::StopsSending | Peer::Turns => {}
        }
        script
    }

    fn turns(self, index: usize) -> u64 {
        match self {
            Peer::Turns => (index as u64).saturating_mul(2),
            _ => TURNS,
        }
    }

    // Whether the request comes whole; `None` where the turns decide.
    fn is_whole(self, index: usize) -> Option<bool> {
        match self {
            Peer::Pieces | Peer::StopsTaking | Peer::FailingWrites => Some(true),
            Peer::StopsSending | Peer::FallsSilent | Peer::FailingReads => {
                Some(index >= REQUEST.len())
            }
            Peer::Turns => None,
        }
    }

    // How many bytes of the answer are taken at least, where the request comes whole.
    fn taken_at_least(self, index: usize) -> usize {
        match self {
            Peer::Pieces | Peer::StopsSending | Peer::FallsSilent => ANSWER.len(),
            Peer::StopsTaking | Peer::FailingWrites => index.min(ANSWER.len()),
            Peer::FailingReads | Peer::Turns => 0,
        }
    }
}

/// What a connection left.
#[derive(Clone, Copy)]
enum Left {
    NoEvent,
    OneEvent,
    /// Another number of events, a seat that didn't come back, or something else was sent than is to be.
    Other,
}

/// How many connections left what.
#[derive(Clone, Copy)]
struct Tally {
    without: u64,
    with: u64,
    other: u64,
}

impl Tally {
    fn add(&mut self, left: Left) {
        let count = match left {
            Left::NoEvent => &mut self.without,
            Left::OneEvent => &mut self.with,
            Left::Other => &mut self.other,
        };
        *count = count.saturating_add(1);
    }
}

/// What the connections of a peer left, in words. Each is served by itself, over a book of its own.
pub fn broken<R>(
    rt: &R,
    alloc: Global,
    runtime: &mut LocalRuntime,
    peer: Peer,
) -> Result<String, AllocError>
where
    R: Wait + Clock + RandomSource + AllocGlobal + Copy + Drop,
{
    let mut tally = Tally {
        without: 0,
        with: 0,
        other: 0,
    };
    for index in 0..peer.connections() {
        tally.add(serve_again(rt, alloc, runtime, peer, index)?);
    }
    described(alloc, peer, tally)
}

fn described(alloc: Global, peer: Peer, tally: Tally) -> Result<String, AllocError> {
    let name = peer.name();
    let Tally {
        without,
        with,
        other,
    } = tally;
    match peer {
        Peer::Turns => {
            let settled = without.saturating_add(with);
            format!(in alloc; "{name}: {settled} settled, {other} other")
        }
        _ => format!(in alloc;
            "{name}: {without} without an event, {with} with one, {other} other"
        ),
    }
}

// Once more where it isn't as it is to be: memory may have run out.
fn serve_again<R>(
    rt: &R,
    alloc: Global,
    runtime: &mut LocalRuntime,
    peer: Peer,
    index: usize,
) -> Result<Left, AllocError>
where
    R: Wait + Clock + RandomSource + AllocGlobal + Copy + Drop,
{
    match serve_one(rt, alloc, runtime, peer, index) {
        Err(AllocError) | Ok(Left::Other) => serve_one(rt, alloc, runtime, peer, index),
        served => served,
    }
}

// What the connection with that index leaves.
fn serve_one<R>(
    rt: &R,
    alloc: Global,
    runtime: &mut LocalRuntime,
    peer: Peer,
    index: usize,
) -> Result<Left, AllocError>
where
    R: Wait + Clock + RandomSource + AllocGlobal + Copy + Drop,
{
    let book = book(alloc)?;
    let opened = open_history(rt, &book);
    serve_over::<Brand, R>(
        rt,
        alloc,
        runtime,
        peer,
        index,
        Blank::new(PARTS),
        PARTS,
        opened,
        book,
    )
}

fn book(alloc: Global) -> Result<Book, AllocError> {
    let mut mappings = Vec::new(alloc);
    mappings.push(mapping(alloc, MAPPING)?)?;
    let book = Book::new(alloc, mappings, 0);
    book.ok().ok_or(AllocError)
}

// The same, over this book.
fn serve_over<L: Origin, R>(
    rt: &R,
    alloc: Global,
    runtime: &mut LocalRuntime,
    peer: Peer,
    index: usize,
    blank: Blank,
    parts: u64,
    opened: OpenedHistory,
    book: Book,
) -> Result<Left, AllocError>
where
    R: Wait + Clock + RandomSource + AllocGlobal + Copy + Drop,
    requires name { blank.name ≡ L.name }
    requires ledger { blank.parts ≡ L.parts }
    requires parts { parts ≡ L.parts }
    requires some { 0 < parts }
    requires history { opened.0 ≡ L.book }
    requires opened { opened.1 ≡ opening book ∷ [] }
    requires origin { book ≡ L.origin }
{
    let (shared, seat) = SharedBook::<L>::new(alloc, blank, parts, opened, book)?;
    let answers = answers_of(alloc, shared.try_clone()?, peer.turns(index))?;
    let input = Bytes::copy_from_slice(alloc, peer.input(index))?;
    let io = ScriptedIo::new(alloc, input, peer.script(index))?;
    let taken = io.taken()?;
    let (seat, _ended) = serve_io(*rt, runtime, &answers, seat, peer.turns(index), io);
    let events = events(rt, alloc, shared, seat)?;
    Ok(judged(peer, index, events, taken.take(alloc).as_slice()))
}

fn answers_of<L: Origin>(
    alloc: Global,
    book: SharedBook<L>,
    turns: u64,
) -> Result<Arc<SiteAnswers<L, NoGate, NoClock, Nowhere, Nowhere, NoLog>>, AllocError> {
    let site = Site {
        book,
        limits: Limits::usual(),
        escape: Escape::Off,
        gate: NoGate,
        clock: NoClock,
        turns,
        routes: AdminRoutes::new(alloc)?,
        page: None,
    };
    let site = Arc::new(alloc, site)?;
    Ok(Arc::new(
        alloc,
        SiteAnswers::new(site, Nowhere, Nowhere, NoLog, JournalLimit::new(None)),
    )?)
}

// How many events are settled, each with a receipt; `None` where the seat didn't come back, or they aren't settled.
fn events<L: Origin, R: Wait>(
    rt: &R,
    alloc: Global,
    shared: SharedBook<L>,
    seat: Option<Seat<L>>,
) -> Result<Option<u64>, AllocError> {
    let Some(seat) = seat else {
        return Ok(None);
    };
    let seats = calls::list(alloc, seat)?;
    match calls::settled(rt, alloc, shared, seats) {
        Ok(settled) if settled.receipts.len() as u64 == settled.events => Ok(Some(settled.events)),
        Ok(_other) => Ok(None),
        Err(_error) => Ok(None),
    }
}

// What that many events, and the bytes that the peer has taken, say of a connection.
fn judged(peer: Peer, index: usize, events: Option<u64>, taken: &[u8]) -> Left {
    let is_whole = peer.is_whole(index);
    match events {
        Some(0) if is_whole != Some(true) && REFUSED.as_bytes().starts_with(taken) => Left::NoEvent,
        Some(1)
            if is_whole != Some(false)
                && ANSWER.as_bytes().starts_with(taken)
                && taken.len() >= peer.taken_at_least(index) => { Left::OneEvent }
        _ => Left::Other,
    }
}
