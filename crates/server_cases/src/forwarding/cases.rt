// Cases: a peer that goes away or fails at each place in turn.
use crate::forwarding::outcome::{Outcome, Shown, exchange};
use crate::forwarding::peer::{CHUNKS, REPLY, SENT};
use crate::scripted_io::Script;
use counted_io::counted::TURN_LIMIT;
use std::alloc::{AllocError, AllocGlobal, Global};
use std::net::Net;
use std::random::RandomSource;
use std::sync::Wait;
use std::time::Clock;

#[derive(Clone, Copy)]
pub enum Forwarding {
    /// A peer that answers, in pieces of each size.
    Pieces,
    /// The input ends after each byte of the reply.
    CutReply,
    CutChunks,
    /// The peer is gone after each byte of the request.
    CutRequest,
    /// Each read fails, and the next one would not.
    FailingReads,
    FailingWrites,
    /// Each number of turns that doesn't suffice, and some that do.
    Turns,
    /// The peer says nothing after each byte, until the turns are used up.
    Silent,
    /// The peer says nothing at all.
    Mute,
}

/// How many exchanges had which outcome.
#[derive(Clone, Copy)]
struct Tally {
    whole: u64,
    failed: u64,
    /// Neither, or something else was sent than is to be.
    other: u64,
}

impl Tally {
    fn add(&mut self, shown: Shown) {
        let count = match shown.outcome {
            Outcome::Whole if shown.is_sent => &mut self.whole,
            Outcome::Failed if shown.is_sent => &mut self.failed,
            _ => &mut self.other,
        };
        *count = count.saturating_add(1);
    }
}

/// How many exchanges of a case gave what, in words.
pub fn forwarded<R>(rt: &R, alloc: Global, case: Forwarding) -> Result<String, AllocError>
where
    R: Wait + Net + Clock + RandomSource + AllocGlobal + Copy + Drop,
{
    let mut tally = Tally {
        whole: 0,
        failed: 0,
        other: 0,
    };
    for step in 0..steps(case) {
        tally.add(step_of(rt, case, step)?);
    }
    described(alloc, case, tally)
}

fn described(alloc: Global, case: Forwarding, tally: Tally) -> Result<String, AllocError> {
    let name = name_of(case);
    let Tally {
        whole,
        failed,
        other,
    } = tally;
    format!(in alloc; "forwarding, {name}: {whole} whole, {failed} failed, {other} other")
}

fn name_of(case: Forwarding) -> &'static str {
    match case {
        Forwarding::Pieces => "pieces of each size",
        Forwarding::CutReply => "a reply that is cut",
        Forwarding::CutChunks => "chunks that are cut",
        Forwarding::CutRequest => "a request that is cut",
        Forwarding::FailingReads => "a read that fails",
        Forwarding::FailingWrites => "a write that fails",
        Forwarding::Turns => "turns",
        Forwarding::Silent => "a reply that stops",
        Forwarding::Mute => "a peer that says nothing",
    }
}

// How many exchanges a case has.
fn steps(case: Forwarding) -> usize {
    match case {
        Forwarding::Pieces => 64,
        Forwarding::CutReply | Forwarding::Silent => REPLY.len() + 1,
        Forwarding::FailingReads => SENT.len() + REPLY.len() + 2,
        Forwarding::CutChunks => CHUNKS.len() + 1,
        Forwarding::CutRequest | Forwarding::FailingWrites => SENT.len() + 1,
        Forwarding::Turns => 512,
        Forwarding::Mute => 4,
    }
}

// What comes of the exchange with that index.
fn step_of<R>(rt: &R, case: Forwarding, step: usize) -> Result<Shown, AllocError>
where
    R: Wait + Net + Clock + RandomSource + AllocGlobal + Copy + Drop,
{
    exchange(
        rt,
        input_of(case, step),
        script_of(case, step),
        turns_of(case, step),
    )
}

// What the peer gives.
fn input_of(case: Forwarding, step: usize) -> &'static [u8] {
    let (whole, end) = match case {
        Forwarding::CutReply | Forwarding::Silent => (REPLY, step),
        Forwarding::CutChunks => (CHUNKS, step),
        Forwarding::Mute => (REPLY, 0),
        _ => (REPLY, REPLY.len()),
    };
    let (front, _rest) = whole.as_bytes().split_at(end.min(whole.len()));
    front
}

// What the peer does; a read or a write moves one byte unless the case is about their size.
fn script_of(case: Forwarding, step: usize) -> Script {
    let mut script = Script {
        piece: 1,
        awaits: SENT.len(),
        takes: SENT.len(),
        is_silent: false,
        failing_read: None,
        failing_write: None,
    };
    let number = (step as u64).saturating_add(1);
    match case {
        Forwarding::Pieces => script.piece = step.saturating_add(1),
        Forwarding::CutRequest => script.takes = step,
        Forwarding::FailingReads => script.failing_read = Some(number),
        Forwarding::FailingWrites => script.failing_write = Some(number),
        Forwarding::Silent | Forwarding::Mute => script.is_silent = true,
        Forwarding::CutReply | Forwarding::CutChunks | Forwarding::Turns => {}
    }
    script
}

fn turns_of(case: Forwarding, step: usize) -> u64 {
    match case {
        Forwarding::Turns => step as u64,
        Forwarding::Silent => 700,
        Forwarding::Mute => (step as u64).saturating_mul(200),
        _ => TURN_LIMIT,
    }
}
