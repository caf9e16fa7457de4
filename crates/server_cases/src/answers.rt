//! What messages are answered.

use crate::messages::{Asked, message};
use answering::begin::begin;
use answering::begun::Begun;
use answering::clock::Clock;
use answering::content::Content;
use answering::rendering::rendered_response;
use answering::site::Site;
use http::Response;
use http_body::Body;
use shared_book::gate::Gate;
use shared_book::origin::Origin;
use shared_book::seat::Seat;
use std::alloc::{AllocError, Global};
use std::sync::Wait;

/// The status of an answer, and how many bytes its body has.
#[derive(Clone, Copy)]
pub struct Answer {
    pub status: u16,
    pub length: u64,
}

/// What the message is answered. No recording is on, so none is to be forwarded.
pub fn answer_to<L: Origin, R: Wait, G: Gate, C: Clock>(
    rt: &R,
    alloc: Global,
    site: &Site<L, G, C>,
    seat: &mut Seat<L>,
    asked: Asked,
) -> Result<Answer, AllocError> {
    let message = message(alloc, asked)?;
    match begin(rt, alloc, site, seat, &message) {
        Ok(Begun::Answered(response)) => described(&response),
        Ok(Begun::Refused(refused)) => described(&refused.response),
        Ok(Begun::ToForward(_forward)) => Err(AllocError),
        Ok(Begun::ToRender(rendering)) => {
            match rendered_response(alloc, rendering.reply(alloc)) {
                Ok(response) => described(&response),
                Err(_error) => Err(AllocError),
            }
        }
        Err(_error) => Err(AllocError),
    }
}

fn described(response: &Response<Content>) -> Result<Answer, AllocError> {
    Ok(Answer {
        status: response.status().as_u16(),
        length: response.body().size_hint().exact().ok_or(AllocError)?,
    })
}
