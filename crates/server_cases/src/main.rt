//! Plays calls and messages over shared books, also of two threads, connections that break off and requests that are
//! forwarded, and prints what each case shows. Then compares what schedules over a book give with the table in `data/`.
//! With arguments it forwards one request to an upstream and prints the reply, as `tests/proxy` wants it.
#![tactic(auto)]

// The table of schedules, and the cases by their names.
mod cases;
mod table;

// Schedules over a book.
mod steps;
mod worlds;

// Calls on shared books, also of two threads.
mod books;
mod calls;
mod cleared;
mod first_waits;
mod fronts;
mod let_go;
mod one_seat;
mod outcomes;
mod scripts;
mod threads;
mod two_threads;
mod versions;

// Connections over a peer in memory that breaks off.
mod broken;
mod no_log;
mod nowhere;
mod scripted_io;

// Messages that are answered over shared books, also by two threads.
mod answered;
mod answers;
mod counted;
mod full;
mod message_threads;
mod messages;
mod no_clock;

// Requests that are forwarded.
mod forwarding;

use broken::{Peer, broken};
use case_table::compare::compare_all;
use cases::{Case, play};
use forwarding::cases::{Forwarding, forwarded};
use forwarding::one::{Printed, forward_one};
use std::alloc::{AllocError, Global};
use std::process::ExitCode;
use std::sync::Wait;
use std::thread::Threads;
use std::{env, io};
use table::Schedules;
use tokio::runtime::LocalRuntime;

fn main(rt: HostRuntime) -> io::Result<ExitCode> {
    let arguments: Vec<String> = env::args(&rt)?.collect(rt.alloc())?;
    if arguments.len() > 1 {
        return print(&rt, &forward_one(&rt, arguments.as_slice())?);
    }
    for case in [
        Case::TwoThreads,
        Case::Scripts,
        Case::Versions,
        Case::Fronts,
        Case::Cleared,
        Case::LetGo,
        Case::Answered,
        Case::Counted,
        Case::Full,
    ]
    .as_slice()
    {
        let line = play_again(&rt, rt.alloc(), *case)?;
        println!(rt; "{line}")?;
    }
    let mut runtime = LocalRuntime::new(&rt)?;
    for peer in [
        Peer::Pieces,
        Peer::StopsSending,
        Peer::FallsSilent,
        Peer::StopsTaking,
        Peer::FailingReads,
        Peer::FailingWrites,
        Peer::Turns,
    ]
    .as_slice()
    {
        let line = broken(&rt, rt.alloc(), &mut runtime, *peer)?;
        println!(rt; "{line}")?;
    }
    for case in [
        Forwarding::Pieces,
        Forwarding::CutReply,
        Forwarding::CutChunks,
        Forwarding::CutRequest,
        Forwarding::FailingReads,
        Forwarding::FailingWrites,
        Forwarding::Turns,
        Forwarding::Silent,
        Forwarding::Mute,
    ]
    .as_slice()
    {
        let line = forwarded(&rt, rt.alloc(), *case)?;
        println!(rt; "{line}")?;
    }
    compare_all(&rt, &[Schedules])
}

// Once more where memory ran out.
fn play_again<R: Threads + Wait + Sync>(
    rt: &R,
    alloc: Global,
    case: Case,
) -> Result<String, AllocError> {
    match play(rt, alloc, case) {
        Ok(text) => Ok(text),
        Err(_error) => play(rt, alloc, case),
    }
}

fn print(rt: &HostRuntime, printed: &Printed) -> io::Result<ExitCode> {
    match printed {
        Printed::Reply {
            status,
            headers,
            length,
            sum,
        } => println!(rt; "{status}{headers} {length} bytes, sum {sum}")?,
        Printed::Failed { code, reason } => println!(rt; "error {code}: {reason}")?,
        Printed::BadArguments => return Ok(ExitCode::from(2)),
    }
    Ok(ExitCode::SUCCESS)
}
