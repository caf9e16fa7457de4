// What the server tells of its requests.
use answering::content::Content;
use answering::refused::Refused;
use answering::rendering::Rendering;
use bytes::Bytes;
use http::{Request, Response};
use hyper_service::log::Log;
use hyper_service::outcome::Outcome;
use mock_request::snapshot::Snapshot;
use proxy_client::failure::Failure;
use request_journal::event::Event;
use request_journal::read::BookRead;
use request_log::request_log::{Offer, RequestLog};
use shared_book::book_read::ReadAnswer;
use shared_book::origin::Origin;
use shared_book::shared_book::SharedBook;
use std::alloc::{AllocError, Global};
use std::sync::Wait;

/// Tells a request log of each message, and what the book offers where that is to be told of.
pub struct ServerLog<L: Origin> {
    log: RequestLog,
    book: SharedBook<L>,
}

// Written out, so that a caller's proof sees one call and not the drop of each part.
impl<L: Origin> Drop for ServerLog<L> {
    fn drop(self) {
        let ServerLog {
            log: _log,
            book: _book,
        } = self;
    }
}

impl<L: Origin> ServerLog<L> {
    /// A log of those who serve the book.
    pub fn new(log: RequestLog, book: &SharedBook<L>) -> Result<ServerLog<L>, AllocError> {
        Ok(ServerLog {
            log,
            book: book.try_clone()?,
        })
    }

    // The mappings and the states of scenarios, as they are now. The lock is held while they are copied.
    fn offer<R: Wait>(&self, rt: &R, alloc: Global) -> Option<Offer> {
        match self.book.peek(rt, alloc, BookRead::Scenarios) {
            Ok(ReadAnswer::Scenarios { states, mappings }) => Some(Offer {
                mappings,
                scenarios: states,
            }),
            _ => None,
        }
    }

    // What there is to tell of a recording, if the event has stopped one.
    fn tell_stopped<R: Wait>(
        &self,
        rt: &R,
        alloc: Global,
        message: &Request<Bytes>,
        event: &Event,
    ) {
        if self.log.tells_skipped(event) {
            self.tell_skipped(rt, alloc);
        }
        if self.log.tells_shared_names(event) {
            self.tell_shared_names(rt, alloc, message, event);
        }
    }

    // The lock is held while the exchanges of the recording are shared.
    fn tell_skipped<R: Wait>(&self, rt: &R, alloc: Global) {
        if let Ok(ReadAnswer::Recording(recording)) = self
            .book
            .peek(rt, alloc, BookRead::Recording)
        {
            self.log.stopped(rt, alloc, &recording);
        }
    }

    fn tell_shared_names<R: Wait>(
        &self,
        rt: &R,
        alloc: Global,
        message: &Request<Bytes>,
        event: &Event,
    ) {
        if let Some(offer) = self.offer(rt, alloc) {
            self.log
                .shared_names(rt, alloc, message, event, offer.mappings.as_slice());
        }
    }
}

impl<L: Origin> Log for ServerLog<L> {
    fn answered<R: Wait>(
        &self,
        rt: &R,
        alloc: Global,
        message: &Request<Bytes>,
        outcome: Option<Outcome<'_>>,
        response: &Response<Content>,
    ) {
        let event = event_of(outcome);
        if !self.log.may_tell(event) {
            return;
        }
        let status = response.status().as_u16();
        let offer = match event {
            Some((_number, event)) if self.log.tells_nearest(event) => self.offer(rt, alloc),
            _ => None,
        };
        self.log.answered(rt, alloc, message, event, status, offer);
        if let Some(outcome) = outcome {
            let event = outcome.receipt.event.event();
            self.log
                .replaced(rt, alloc, message, event, outcome.replaced);
            self.tell_stopped(rt, alloc, message, event);
        }
    }

    fn refused<R: Wait>(
        &self,
        rt: &R,
        alloc: Global,
        message: &Request<Bytes>,
        outcome: Option<Outcome<'_>>,
        refused: &Refused,
    ) {
        let status = refused.response.status().as_u16();
        let lines = refused.lines.as_str();
        self.log
            .refused(rt, alloc, message, event_of(outcome), status, lines);
    }

    fn forwarded<R: Wait>(
        &self,
        rt: &R,
        alloc: Global,
        number: u64,
        request: &Snapshot,
        status: u16,
        failure: Option<Failure>,
    ) {
        let failure = match failure {
            Some(failure) => Some(failure.reason()),
            None => None,
        };
        self.log
            .forwarded(rt, alloc, number, request, status, failure);
    }

    fn rendered<R: Wait>(&self, rt: &R, alloc: Global, rendering: &Rendering, status: u16) {
        self.log.rendered(
            rt,
            alloc,
            rendering.number,
            rendering.request.request(),
            &rendering.captured,
            status,
        );
    }
}

// The event that a message made, with its number.
fn event_of(outcome: Option<Outcome<'_>>) -> Option<(u64, &Event)> {
    let receipt = outcome?.receipt;
    Some((receipt.number, receipt.event.event()))
}
