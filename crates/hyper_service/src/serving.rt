// The start and the end of a server.
ghost use Rattle.std.specs.Prelude.{◌≡◌, ◌≤◌, IfErr, IfOk};
ghost use Rattle.std.specs.Arc.{arc_value};
ghost use Rattle.http_connections.specs.Site.{settings_of, site_of};
ghost use Rattle.hyper_service.specs.Report.{Announces, IsAnnounced, IsSettling, MayReportMemory};
ghost use Rattle.hyper_service.specs.Report.{ReportsEnded, ReportsUnserved};

use crate::log::Log;
use crate::renders::Renders;
use crate::report::report;
use crate::site_answers::SiteAnswers;
use answering::clock::Clock;
use command_output::error::CommandError;
use command_output::output::put;
use command_output::status::FAILURE;
use error_code::error_code::ErrorCode;
use http_connections::ender::Ender;
use http_connections::serve_on::{Served, Server};
use http_connections::settings::Settings;
use proxy_client::forwards::Forwards;
use shared_book::gate::Gate;
use shared_book::origin::Origin;
use shared_book::seat::Seat;
use shared_book::settle::settle;
use shared_book::settled::SettleRefusal;
use shared_book::shared_book::SharedBook;
use std::alloc::{AllocError, Global};
use std::io;
use std::io::{ErrorKind, Write};
use std::net::TcpListener;
use std::sync::{Arc, Wait};

/// What the threads of a server share that answers by a site.
pub type SiteServer<L, G, C, F, V, N> = Server<SiteAnswers<L, G, C, F, V, N>>;

/// Begins to serve connections, each of which gets a seat of its own that is split off `seat`. Writes where the listener
/// listens, before the first is accepted. Where there is no memory, or the line can't be written, it gives the exit
/// status, and writes why to `err`. The server ends, too, when `ender` is asked.
pub fn begin_serving<R, L, G, C, F, V, N, O, E>(
    rt: &R,
    alloc: Global,
    listener: &TcpListener,
    ender: &Arc<Ender>,
    answers: SiteAnswers<L, G, C, F, V, N>,
    seat: Seat<L>,
    settings: Settings,
    out: &mut O,
    err: &mut E,
) -> Result<Arc<SiteServer<L, G, C, F, V, N>>, u8>
where
    R: Wait,
    L: Origin,
    G: Gate + Drop,
    C: Clock + Drop,
    F: Forwards,
    V: Renders,
    N: Log + Drop,
    O: Write,
    E: Write,
    ensures serves { IfOk result (λ server. (site_of (arc_value server) ≡ answers)
        × (settings_of (arc_value server) ≡ settings)) }
    ensures announced { IfOk result (λ _. IsAnnounced (O.contents out.old) (O.contents out.new)) }
    ensures silent { IfOk result (λ _. err.new ≡ err.old) }
    ensures failed { IfErr result (ReportsUnserved O.contents E.contents out.old out.new err.old err.new) }
    ensures status { IfErr result (λ status. status ≡ FAILURE) }
{
    let announced = announce(alloc, listener, out);
    if announced.is_err() {
        return Err(report_unannounced(&announced, err));
    }
    match open(rt, alloc, ender, answers, seat, settings) {
        Ok(server) => Ok(server),
        Err(_error) => {
            CommandError::from(ErrorCode::OutOfMemory).report(err);
            Err(FAILURE)
        }
    }
}

/// Settles the seats of a server all of whose connections have ended, and writes how many events there were, and an
/// error to `err`. `ran` is what serving them gave. Gives the exit status.
pub fn end_serving<R, L, G, C, F, V, N, O, E>(
    rt: &R,
    alloc: Global,
    server: &SiteServer<L, G, C, F, V, N>,
    book: SharedBook<L>,
    ran: &io::Result<()>,
    out: &mut O,
    err: &mut E,
) -> u8
where
    R: Wait,
    L: Origin,
    G: Gate + Drop,
    C: Clock + Drop,
    F: Forwards,
    V: Renders,
    N: Log + Drop,
    O: Write,
    E: Write,
    ensures written { ReportsEnded O.contents E.contents L.origin L.parts L.book
        out.old out.new err.old err.new result }
    ensures status { result ≤ 1 }
{
    match server.served(rt, alloc, ran) {
        Ok(Served { seats, end }) => report(events(rt, alloc, book, seats), end, out, err),
        Err(_error) => {
            CommandError::from(ErrorCode::OutOfMemory).report(err);
            FAILURE
        }
    }
}

fn open<R, L, G, C, F, V, N>(
    rt: &R,
    alloc: Global,
    ender: &Arc<Ender>,
    answers: SiteAnswers<L, G, C, F, V, N>,
    seat: Seat<L>,
    settings: Settings,
) -> Result<Arc<SiteServer<L, G, C, F, V, N>>, AllocError>
where
    R: Wait,
    L: Origin,
    G: Gate + Drop,
    C: Clock + Drop,
    F: Forwards,
    V: Renders,
    N: Log + Drop,
    ensures { IfOk result (λ server. (site_of (arc_value server) ≡ answers)
        × (settings_of (arc_value server) ≡ settings)) }
{
    let turns = answers.turns();
    let answers = Arc::new(alloc, answers)?;
    let server = Server::open(rt, alloc, &answers, seat, settings, turns, ender)?;
    Ok(Arc::new(alloc, server)?)
}

// Says where it listens, at once.
fn announce<O: Write>(alloc: Global, listener: &TcpListener, out: &mut O) -> io::Result<()>
    ensures { Announces result (O.contents out.old) (O.contents out.new) }
{
    let address = listener.local_addr()?;
    let line = format!(in alloc; "listening on {address}\n")?;
    put(out, line.as_bytes())?;
    out.flush()
}

// Says so where memory ran out. Where standard output took nothing, whoever has made it says why.
fn report_unannounced<E: Write>(announced: &io::Result<()>, err: &mut E) -> u8
    ensures written { MayReportMemory E.contents err.old err.new }
    ensures status { result ≡ FAILURE }
{
    if !is_out_of_memory(announced) {
        return FAILURE;
    }
    CommandError::from(ErrorCode::OutOfMemory).report(err);
    FAILURE
}

fn is_out_of_memory(written: &io::Result<()>) -> bool {
    match written {
        Ok(()) => false,
        Err(error) => error.kind() == ErrorKind::OutOfMemory,
    }
}

// How many events there are in the one history of all seats.
fn events<L: Origin, R: Wait>(
    rt: &R,
    alloc: Global,
    book: SharedBook<L>,
    seats: Vec<Seat<L>>,
) -> Result<u64, SettleRefusal>
    ensures { IsSettling L.origin L.parts L.book seats.items result }
{
    match settle(rt, alloc, book, seats) {
        Ok(settled) => Ok(settled.events),
        Err(error) => Err(error.reason),
    }
}
