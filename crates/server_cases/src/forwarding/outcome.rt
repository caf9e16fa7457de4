// What comes of an exchange.
use crate::forwarding::peer::{RELAYED, SENT, request, target};
use crate::scripted_io::{Script, ScriptedIo};
use bytes::Bytes;
use mapping_model::reply::Reply;
use proxy_client::error::ProxyError;
use proxy_client::forward::forward_over;
use std::alloc::{AllocError, AllocGlobal, Global};
use std::net::Net;
use std::random::RandomSource;
use std::sync::Wait;
use std::time::Clock;

/// What came of an exchange.
#[derive(Clone, Copy, Debug, PartialEq, Eq)]
pub enum Outcome {
    /// The whole reply.
    Whole,
    /// Error 53.
    Failed,
    /// Anything else.
    Other,
}

/// Whether what was taken is the beginning of what is to be sent, and what came of it.
#[derive(Clone, Copy)]
pub struct Shown {
    pub outcome: Outcome,
    pub is_sent: bool,
}

/// Forwards the request to a peer that gives the input; once more where memory runs out.
pub fn exchange<R>(rt: &R, input: &[u8], script: Script, turns: u64) -> Result<Shown, AllocError>
where
    R: Wait + Net + Clock + RandomSource + AllocGlobal + Copy + Drop,
{
    match try_exchange(rt, input, script, turns) {
        Ok(shown) => Ok(shown),
        Err(AllocError) => try_exchange(rt, input, script, turns),
    }
}

fn try_exchange<R>(rt: &R, input: &[u8], script: Script, turns: u64) -> Result<Shown, AllocError>
where
    R: Wait + Net + Clock + RandomSource + AllocGlobal + Copy + Drop,
{
    let alloc = rt.alloc();
    let target = target(alloc)?;
    let request = request(alloc)?;
    let io = ScriptedIo::new(alloc, Bytes::copy_from_slice(alloc, input)?, script)?;
    let taken = io.taken()?;
    let outcome = match forward_over(rt, io, turns, &target, &request) {
        Ok(reply) => outcome_of(alloc, &reply)?,
        Err(ProxyError::UpstreamFailed(_)) => Outcome::Failed,
        Err(ProxyError::OutOfMemory) => return Err(AllocError),
    };
    let is_sent = SENT.as_bytes().starts_with(taken.take(alloc).as_slice());
    Ok(Shown { outcome, is_sent })
}

fn outcome_of(alloc: Global, reply: &Reply) -> Result<Outcome, AllocError> {
    let text = text_of(alloc, reply)?;
    if reply.status == 200 && text.as_slice() == RELAYED.as_bytes() {
        Ok(Outcome::Whole)
    } else {
        Ok(Outcome::Other)
    }
}

// The lines of the headers, then the content.
fn text_of(alloc: Global, reply: &Reply) -> Result<Vec<u8>, AllocError> {
    let mut text = Vec::new(alloc);
    for header in reply.headers.as_slice() {
        text.extend_from_slice(header.name.as_str().as_bytes())?;
        text.extend_from_slice(b": ")?;
        text.extend_from_slice(header.value.as_slice())?;
        text.extend_from_slice(b"\n")?;
    }
    text.extend_from_slice(reply.body.as_slice())?;
    Ok(text)
}
