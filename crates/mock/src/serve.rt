// The server of a book.
ghost use Rattle.std.specs.Prelude.{◌≡◌, ◌<◌, ◌≤◌, ◌∷◌, [], IfOk, option_copied};
ghost use Rattle.hyper_service.specs.Given.{rules_of};
ghost use Rattle.hyper_service.specs.Report.{ReportsServed};
ghost use Rattle.mapping_commands.specs.Answering.{usual_limits};
ghost use Rattle.mock.specs.Served.{ServesBook};
ghost use Rattle.mapping_files.specs.Served.{IsServedBook};
ghost use Rattle.shared_history.specs.Entries.{opening};

use crate::arguments::ServeArguments;
use crate::descriptors::open_connections;
use crate::server_log::ServerLog;
use crate::serving_threads::{MockAnswers, serve_on_threads};
use crate::system::System;
use crate::watch::Watch;
use admin_routes::router::AdminRoutes;
use answering::clock::SystemClock;
use answering::site::Site;
use bytes::Bytes;
use command_output::error::CommandError;
use command_output::files::reason_line;
use command_output::output::{put, put_notes};
use command_output::status::FAILURE;
use counted_io::counted::TURN_LIMIT;
use error_code::error_code::ErrorCode;
use http_connections::ender::Ender;
use http_connections::settings::Settings;
use hyper_service::journal_limit::JournalLimit;
use hyper_service::renderer::Renderer;
use hyper_service::serving::{begin_serving, end_serving};
use hyper_service::site_answers::SiteAnswers;
use mapping_files::book::{BookArguments, book_of};
use mapping_files::save::out_of_memory;
use proxy_client::client::{Client, SILENCE_SECONDS};
use proxy_client::forwarder::Forwarder;
use request_journal::input::BookInput;
use request_log::lines::Lines;
use request_log::request_log::RequestLog;
use request_log::start::start;
use shared_book::gate::NoGate;
use shared_book::history::OpenedHistory;
use shared_book::origin::Origin;
use shared_book::seat::Seat;
use shared_book::shared_book::{SharedBook, open_history};
use std::alloc::{AllocError, Global};
use std::io;
use std::io::{ErrorKind, Read, Write};
use std::marker::Brand;
use std::net::{IpAddr, SocketAddr, TcpListener};
use std::sync::ledger::Blank;
use std::sync::{Arc, Wait};
use std::time::Duration;
use stub_book::book::Book;
use stub_response::limits::Limits;
use tokio::runtime::LocalRuntime;

// Into how many parts the ledger is cut: as many connections may be open at once, less one.
const PARTS: u64 = 4_294_967_296;

// What an upstream of a recording is.
const TARGETS: &str =
    "  TARGET is http://host[:port][/prefix] with localhost, an IPv4 address or an IPv6 address in brackets as its host\n";

// How long the end waits for what is told of requests to be written, in seconds.
const LOG_SECONDS: u64 = 1;

/// What a server does beside serving.
#[derive(Drop)]
pub(crate) struct Plan<I> {
    /// What it records from its start on.
    pub(crate) recording: Option<BookInput>,
    /// What `GET /__admin/page` is answered with.
    pub(crate) page: Option<Bytes>,
    pub(crate) watch: Watch<I>,
}

/// Serves as the arguments say, and gives the exit status: 0, or 1 with a line on `err`. First the file is judged, then
/// its mappings, the book, and the port. What is told of requests is written to `log`, by a thread of its own.
pub(crate) fn serve<R, O, E, W, I>(
    rt: R,
    arguments: ServeArguments<'_>,
    plan: Plan<I>,
    out: &mut O,
    err: &mut E,
    log: W,
) -> u8
where
    R: System,
    O: Write,
    E: Write,
    W: Write + Drop + Send + 'static,
    I: Read + Drop + Send + 'static,
    ensures serves { ServesBook O.contents E.contents
        (IsServedBook arguments.entry.first_event arguments.entry.skips_refused arguments.entry.escape
        (option_copied arguments.entry.mappings) (R.listed rt) (R.content rt))
        out.old out.new err.new result }
    ensures status { result ≤ 1 }
{
    let escape = arguments.escape;
    let given = BookArguments {
        mappings: arguments.mappings,
        escape,
        first_event: arguments.first_event,
        skips_refused: arguments.skips_refused,
    };
    let Some(book) = book_of(rt.alloc(), &rt, given, err) else {
        return FAILURE;
    };
    let Ok(ender) = ender_of(rt.alloc()) else {
        return out_of_memory(err);
    };
    match log_to(rt, arguments, log, plan) {
        Ok((lines, log, plan)) => {
            let blank = Blank::new(PARTS);
            let opened = open_history(&rt, &book);
            let status = serve_book::<Brand, R, O, E, I>(
                rt, blank, PARTS, opened, book, arguments, plan, log, &ender, out, err,
            );
            lines.close(&rt, Duration::from_secs(LOG_SECONDS));
            status
        }
        Err(_error) => out_of_memory(err),
    }
}

// What ends the server once it is asked to.
fn ender_of(alloc: Global) -> Result<Arc<Ender>, AllocError> {
    Ok(Arc::new(alloc, Ender::new(alloc)?)?)
}

// The lines that a thread writes to `out`, what tells of requests by them, and the plan whose watch tells by them.
fn log_to<R, W, I>(
    rt: R,
    arguments: ServeArguments<'_>,
    out: W,
    plan: Plan<I>,
) -> Result<(Arc<Lines>, RequestLog, Plan<I>), AllocError>
where
    R: System,
    W: Write + Drop + Send + 'static,
    I: Read + Drop + Send + 'static,
{
    let lines = start(rt, out)?;
    let log = RequestLog::new(Arc::try_clone(&lines)?, arguments.verbose, Limits::usual());
    let Plan {
        recording,
        page,
        watch,
    } = plan;
    let plan = Plan {
        recording,
        page,
        watch: watch.telling(Arc::try_clone(&lines)?),
    };
    Ok((lines, log, plan))
}

fn serve_book<L, R, O, E, I>(
    rt: R,
    blank: Blank,
    parts: u64,
    opened: OpenedHistory,
    book: Book,
    arguments: ServeArguments<'_>,
    plan: Plan<I>,
    log: RequestLog,
    ender: &Arc<Ender>,
    out: &mut O,
    err: &mut E,
) -> u8
where
    L: Origin + Send + Sync,
    R: System,
    O: Write,
    E: Write,
    I: Read + Drop + Send + 'static,
    requires name { blank.name ≡ L.name }
    requires ledger { blank.parts ≡ L.parts }
    requires parts { parts ≡ L.parts }
    requires some { 0 < parts }
    requires history { opened.0 ≡ L.book }
    requires opened { opened.1 ≡ opening book ∷ [] }
    requires origin { book ≡ L.origin }
    ensures serves { ServesBook O.contents E.contents (λ past. past ≡ book) out.old out.new err.new result }
    ensures status { result ≤ 1 }
{
    match SharedBook::<L>::new(rt.alloc(), blank, parts, opened, book) {
        Ok((book, seat)) => serve_shared(rt, book, seat, arguments, plan, log, ender, out, err),
        Err(_error) => out_of_memory(err),
    }
}

fn serve_shared<L, R, O, E, I>(
    rt: R,
    book: SharedBook<L>,
    seat: Seat<L>,
    arguments: ServeArguments<'_>,
    plan: Plan<I>,
    log: RequestLog,
    ender: &Arc<Ender>,
    out: &mut O,
    err: &mut E,
) -> u8
where
    L: Origin + Send + Sync,
    R: System,
    O: Write,
    E: Write,
    I: Read + Drop + Send + 'static,
    ensures serves { ServesBook O.contents E.contents (λ past. past ≡ L.origin) out.old out.new err.new result }
    ensures status { result ≤ 1 }
{
    let mut seat = seat;
    let Plan {
        recording,
        page,
        watch,
    } = plan;
    if let Some(start) = recording {
        if let Err(code) = begin_recording(&rt, &book, &mut seat, start) {
            return report_recording(code, err);
        }
    }
    match listen(rt, arguments.address, arguments.port) {
        Ok(listening) => serve_listening(
            rt, listening, book, seat, arguments, page, watch, log, ender, out, err,
        ),
        Err(error) => report(rt.alloc(), arguments, &error, err),
    }
}

fn serve_listening<L, R, O, E, I>(
    rt: R,
    listening: Listening<R>,
    book: SharedBook<L>,
    seat: Seat<L>,
    arguments: ServeArguments<'_>,
    page: Option<Bytes>,
    watch: Watch<I>,
    log: RequestLog,
    ender: &Arc<Ender>,
    out: &mut O,
    err: &mut E,
) -> u8
where
    L: Origin + Send + Sync,
    R: System,
    O: Write,
    E: Write,
    I: Read + Drop + Send + 'static,
    ensures serves { ServesBook O.contents E.contents (λ past. past ≡ L.origin) out.old out.new err.new result }
    ensures status { result ≤ 1 }
{
    let Listening {
        mut runtime,
        listener,
        forwarder,
    } = listening;
    let settings = Settings {
        connections: arguments.connections,
        max_connections: open_connections(arguments.max_connections, arguments.threads, err),
    };
    let Ok(log) = ServerLog::new(log, &book) else {
        return out_of_memory(err);
    };
    let Ok(book_to_settle) = book.try_clone() else {
        return out_of_memory(err);
    };
    if let Err(error) = start_watch(rt, &listener, watch, ender) {
        return report_watch(rt.alloc(), &error, err);
    }
    match answers_of(rt, book, forwarder, arguments, page, log) {
        Ok(answers) => serve_answers(
            rt,
            &mut runtime,
            listener,
            arguments.threads,
            ender,
            answers,
            book_to_settle,
            seat,
            settings,
            out,
            err,
        ),
        Err(_error) => out_of_memory(err),
    }
}

// Serves the connections of a listener on `threads` threads, the calling one among them, and settles the book once all
// have ended.
fn serve_answers<L, R, O, E>(
    rt: R,
    runtime: &mut LocalRuntime,
    listener: TcpListener,
    threads: u64,
    ender: &Arc<Ender>,
    answers: MockAnswers<L, R>,
    book: SharedBook<L>,
    seat: Seat<L>,
    settings: Settings,
    out: &mut O,
    err: &mut E,
) -> u8
where
    L: Origin + Send + Sync,
    R: System,
    O: Write,
    E: Write,
    ensures written { ReportsServed O.contents E.contents L.origin L.parts L.book
        out.old out.new err.old err.new result }
    ensures status { result ≤ 1 }
{
    let alloc = rt.alloc();
    match begin_serving(
        &rt, alloc, &listener, ender, answers, seat, settings, out, err,
    ) {
        Ok(server) => {
            let ran = serve_on_threads(rt, runtime, listener, &server, threads);
            end_serving(&rt, alloc, &server, book, &ran, out, err)
        }
        Err(status) => status,
    }
}

// From now on the server may be ended with the input.
fn start_watch<R, I>(
    rt: R,
    listener: &TcpListener,
    watch: Watch<I>,
    ender: &Arc<Ender>,
) -> io::Result<()>
where
    R: System,
    I: Read + Drop + Send + 'static,
{
    watch.start(rt, listener.local_addr()?, Arc::try_clone(ender)?)
}

fn begin_recording<L: Origin, R: Wait>(
    rt: &R,
    book: &SharedBook<L>,
    seat: &mut Seat<L>,
    start: BookInput,
) -> Result<(), ErrorCode> {
    match seat.apply(rt, book, start) {
        Ok(_receipt) => Ok(()),
        Err(error) => Err(error.code),
    }
}

// Why nothing can be recorded.
fn report_recording<E: Write>(code: ErrorCode, err: &mut E) -> u8
    ensures { result ≡ FAILURE }
{
    CommandError::from(code).report(err);
    if code == ErrorCode::BadTarget {
        put_notes(err, TARGETS);
    }
    FAILURE
}

// Why nobody waits for the end of standard input.
fn report_watch<E: Write>(alloc: Global, error: &io::Error, err: &mut E) -> u8
    ensures { result ≡ FAILURE }
{
    // The exit status is 1 in any case.
    let _ = put(
        err,
        "error: cannot wait for the end of standard input\n".as_bytes(),
    );
    put_notes(err, reason_line(alloc, error).as_str());
    FAILURE
}

// What the connections are served by.
fn answers_of<L, R>(
    rt: R,
    book: SharedBook<L>,
    forwarder: Forwarder<R>,
    arguments: ServeArguments<'_>,
    page: Option<Bytes>,
    log: ServerLog<L>,
) -> Result<MockAnswers<L, R>, AllocError>
where
    L: Origin,
    R: System,
    ensures { IfOk result (λ answers. rules_of L.origin L.book answers ≡ record {
      origin = L.origin;
      history = L.book;
      limits = usual_limits;
      escape = arguments.entry.escape;
      page = page;
      journal = arguments.entry.journal_limit;
    }) }
{
    let site = Site {
        book,
        limits: Limits::usual(),
        escape: arguments.escape,
        gate: NoGate,
        clock: SystemClock::new(rt),
        turns: TURN_LIMIT,
        routes: AdminRoutes::new(rt.alloc())?,
        page,
    };
    let site = Arc::new(rt.alloc(), site)?;
    let renderer = Renderer::new(rt)?;
    let journal = JournalLimit::new(arguments.journal_limit);
    Ok(SiteAnswers::new(site, forwarder, renderer, log, journal))
}

// A listener, the runtime of the calling thread, and what forwards requests.
#[derive(Drop)]
struct Listening<R> {
    runtime: LocalRuntime,
    listener: TcpListener,
    forwarder: Forwarder<R>,
}

fn listen<R: System>(rt: R, address: IpAddr, port: u16) -> io::Result<Listening<R>> {
    let runtime = LocalRuntime::new(&rt)?;
    let address = SocketAddr::from((address, port));
    // By `mio`, whose sockets let as many connections wait as the system allows.
    let listener = TcpListener::from(mio::net::TcpListener::bind(&rt, address)?);
    let client = Client::new(rt, TURN_LIMIT, Duration::from_secs(SILENCE_SECONDS))?;
    let forwarder = Forwarder::new(client, listener.local_addr()?);
    Ok(Listening {
        runtime,
        listener,
        forwarder,
    })
}

// Where it can't listen, and why.
fn report<E: Write>(
    alloc: Global,
    arguments: ServeArguments<'_>,
    error: &io::Error,
    err: &mut E,
) -> u8
    ensures { result ≡ FAILURE }
{
    if error.kind() == ErrorKind::OutOfMemory {
        return out_of_memory(err);
    }
    // The exit status is 1 in any case.
    let _ = put(err, "error: cannot listen\n".as_bytes());
    let address = SocketAddr::from((arguments.address, arguments.port));
    // The reason is said if there is memory for it.
    if let Ok(line) = format!(in alloc; "  {address}: {error}\n") {
        put_notes(err, line.as_str());
    }
    FAILURE
}
