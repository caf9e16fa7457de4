// What is written once no more connections are accepted.
ghost use Rattle.std.specs.Prelude.{◌≤◌};
ghost use Rattle.command_output.specs.Output.{AppendsFront, Writes};
ghost use Rattle.hyper_service.specs.Report.{ReportsSeats, ReportsEnd, refusal_line, settled_line};

use command_output::error::CommandError;
use command_output::output::{put, put_all};
use command_output::status::{FAILURE, SUCCESS};
use error_code::error_code::ErrorCode;
use http_connections::serve_on::End;
use itoa::Buffer;
use shared_book::settled::SettleRefusal;
use std::io;
use std::io::Write;

/// Writes how many events were settled, or why they weren't, and why no more connections were accepted. Gives the exit
/// status. Takes no memory.
pub fn report<O: Write, E: Write>(
    settled: Result<u64, SettleRefusal>,
    end: End,
    out: &mut O,
    err: &mut E,
) -> u8
    ensures written { ReportsSeats O.contents E.contents settled end out.old out.new err.old err.new result }
    ensures status { result ≤ 1 }
{
    match settled {
        Ok(events) => match put_settled(events, out) {
            Ok(()) => report_end(end, err),
            Err(_error) => FAILURE,
        },
        Err(refusal) => {
            report_refusal(&refusal, err);
            FAILURE
        }
    }
}

fn put_settled<O: Write>(events: u64, out: &mut O) -> io::Result<()>
    ensures { Writes result (O.contents out.old) (O.contents out.new) (settled_line events) }
{
    let mut digits = Buffer::new();
    put_all(
        out,
        ["settled ", digits.format(events), " events\n"].as_slice(),
    )
}

fn report_end<E: Write>(end: End, err: &mut E) -> u8
    ensures written { ReportsEnd E.contents end err.old err.new result }
    ensures status { result ≤ 1 }
{
    match end {
        End::AllServed | End::Asked => return SUCCESS,
        End::AcceptFailed => report_line("error: accept failed\n", err),
        End::OutOfMemory => CommandError::from(ErrorCode::OutOfMemory).report(err),
    }
    FAILURE
}

fn report_refusal<E: Write>(refusal: &SettleRefusal, err: &mut E)
    ensures { AppendsFront (E.contents err.old) (E.contents err.new) (refusal_line refusal.now) }
{
    match refusal {
        SettleRefusal::SeatsMissing => report_line("error: seats missing\n", err),
        SettleRefusal::Mismatch { number: _, kept: _ } => {
            report_line("error: history mismatch\n", err);
        }
        SettleRefusal::OutOfMemory => CommandError::from(ErrorCode::OutOfMemory).report(err),
    }
}

// As far as the writer takes it: the exit status is 1 in any case.
fn report_line<E: Write>(line: &str, err: &mut E)
    ensures { AppendsFront (E.contents err.old) (E.contents err.new) line.now }
{
    let _ = put(err, line.as_bytes());
}
