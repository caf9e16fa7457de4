// What is told of requests.
use crate::lines::Lines;
use crate::mapping_name::push_mapping;
pub use crate::nearest::Offer;
use crate::nearest::nearest_lines;
use crate::over_budget::over_budget_line;
use crate::replaced::replaced_line;
use crate::request_line::request_line;
use crate::shared_names::{have_scenario, shared_name_lines};
use crate::skipped::skipped_lines;
use admin_routes::url::is_admin;
use bytes::Bytes;
use call_refusal::told::call_of;
use error_code::error_code::ErrorCode;
use http::Request;
use itoa::Buffer;
use mapping_diagnosis::notes::Notes;
use mapping_diagnosis::shown::cut;
use mock_request::snapshot::Snapshot;
use recorder::recording::Recording;
use request_journal::event::{Captured, Event, ServeAnswer};
use request_journal::mapping::Mapping;
use request_match::error::RequestMatchError;
use std::alloc::{AllocError, Global};
use std::sync::{Arc, Wait};
use stub_response::limits::Limits;

/// How many characters of a method and of a URL are told.
pub(crate) const SHOWN: usize = 1000;

/// The status of the response to a request where the templates of its mapping are over the limits.
const OVER_BUDGET: u16 = 500;

/// Tells of requests by lines that another thread writes.
#[derive(Drop)]
pub struct RequestLog {
    lines: Arc<Lines>,
    /// Whether it tells of each request, or of those alone that were forwarded in vain, and of admin calls that were
    /// refused or have warnings.
    is_verbose: bool,
    /// What the templates of a response may take.
    limits: Limits,
}

impl RequestLog {
    pub fn new(lines: Arc<Lines>, is_verbose: bool, limits: Limits) -> RequestLog {
        RequestLog {
            lines,
            is_verbose,
            limits,
        }
    }

    /// Whether there may be something to tell of a message that was answered, and made this event, if it made one.
    pub fn may_tell(&self, event: Option<(u64, &Event)>) -> bool {
        self.is_verbose || has_warnings(event)
    }

    /// Whether it tells which mappings came nearest, once the request of the event was answered.
    pub fn tells_nearest(&self, event: &Event) -> bool {
        self.is_verbose
            && matches!(
                event,
                Event::Serve {
                    request: _,
                    answer: ServeAnswer::Unmatched,
                }
            )
    }

    /// Tells of a message that was answered with this status. The event with its number is the one that it made, if it
    /// made one. Where `tells_nearest` says so, what the book offers is given too.
    pub fn answered<R: Wait>(
        &self,
        rt: &R,
        alloc: Global,
        message: &Request<Bytes>,
        event: Option<(u64, &Event)>,
        status: u16,
        offer: Option<Offer>,
    ) {
        if self.is_verbose {
            let lines = self.lines_of(alloc, message, event, status, offer);
            self.add(rt, lines);
        }
        if is_posted(event) {
            self.add(rt, posted_warnings(alloc, message));
        }
    }

    /// Tells of an admin call that was refused with this status, as the lines say. The event is one that it made all
    /// the same.
    pub fn refused<R: Wait>(
        &self,
        rt: &R,
        alloc: Global,
        message: &Request<Bytes>,
        event: Option<(u64, &Event)>,
        status: u16,
        lines: &str,
    ) {
        if self.is_verbose {
            self.add(rt, line_of(alloc, message, event, status));
        }
        if !lines.is_empty() {
            self.lines.add(rt, lines);
        }
    }

    /// Warns where mappings gave way to those that the event of this message added.
    pub fn replaced<R: Wait>(
        &self,
        rt: &R,
        alloc: Global,
        message: &Request<Bytes>,
        event: &Event,
        replaced: u64,
    ) {
        if replaced > 0 {
            self.add(rt, replaced_warning(alloc, message, event, replaced));
        }
    }

    /// Tells of a request that was forwarded, and whose event has this number. `failure` is why the upstream gave no
    /// reply, in words.
    pub fn forwarded<R: Wait>(
        &self,
        rt: &R,
        alloc: Global,
        number: u64,
        request: &Snapshot,
        status: u16,
        failure: Option<&str>,
    ) {
        if self.is_verbose {
            let line = forwarded_line(alloc, number, request, status);
            self.add(rt, line);
        }
        if let Some(failure) = failure {
            let line = failed_line(alloc, request, failure);
            self.add(rt, line);
        }
    }

    /// Whether it tells of which exchanges of a recording no mappings were made, once the call of the event was
    /// answered.
    pub fn tells_skipped(&self, event: &Event) -> bool {
        matches!(event, Event::StopRecording { mappings: _, skipped } if *skipped > 0)
    }

    /// Tells of which exchanges of a recording no mappings were made, where it is stopped still.
    pub fn stopped<R: Wait>(&self, rt: &R, alloc: Global, recording: &Recording) {
        if let Recording::Stopped(session) = recording {
            let lines = skipped_lines(alloc, session);
            self.add(rt, lines);
        }
    }

    /// Whether it tells of the scenarios of the recording that the event has stopped: it has some.
    pub fn tells_shared_names(&self, event: &Event) -> bool {
        match event {
            Event::StopRecording {
                mappings,
                skipped: _,
            } => have_scenario(mappings.as_slice()),
            _ => false,
        }
    }

    /// Warns of the scenarios of the recording that was stopped by this message and event, if other mappings take part in
    /// them. `live` are the mappings of the book.
    pub fn shared_names<R: Wait>(
        &self,
        rt: &R,
        alloc: Global,
        message: &Request<Bytes>,
        event: &Event,
        live: &[Mapping],
    ) {
        if let Event::StopRecording {
            mappings,
            skipped: _,
        } = event
        {
            let recorded = mappings.as_slice();
            self.add(rt, shared_name_warnings(alloc, message, recorded, live));
        }
    }

    /// Tells of a request whose response was rendered after others had been answered. Its event has this number, and
    /// captured this mapping.
    pub fn rendered<R: Wait>(
        &self,
        rt: &R,
        alloc: Global,
        number: u64,
        request: &Snapshot,
        captured: &Captured,
        status: u16,
    ) {
        if self.is_verbose {
            let lines = rendered_lines(alloc, number, request, captured, status, self.limits);
            self.add(rt, lines);
        }
    }

    // The line of a request, and those that say why it was answered so. Where there is no memory for these, the line
    // alone.
    fn lines_of(
        &self,
        alloc: Global,
        message: &Request<Bytes>,
        event: Option<(u64, &Event)>,
        status: u16,
        offer: Option<Offer>,
    ) -> Result<String, AllocError> {
        let mut lines = line_of(alloc, message, event, status)?;
        if let Some((_number, event)) = event {
            if let Ok(reason) = reason_of(alloc, event, status, offer, self.limits) {
                lines.push_str(reason.as_str())?;
            }
        }
        Ok(lines)
    }

    // What there is no memory for isn't told.
    fn add<R: Wait>(&self, rt: &R, told: Result<String, AllocError>) {
        if let Ok(text) = told {
            if !text.is_empty() {
                self.lines.add(rt, text.as_str());
            }
        }
    }
}

fn forwarded_line(
    alloc: Global,
    number: u64,
    request: &Snapshot,
    status: u16,
) -> Result<String, AllocError> {
    let method = cut(alloc, request.method(), SHOWN)?;
    let url = cut(alloc, request.url(), SHOWN)?;
    request_line(
        alloc,
        Some(number),
        method.as_str(),
        url.as_str(),
        "proxied",
        status,
    )
}

// The line of a request whose response was rendered, and why its templates were not run, if they weren't. Where there is
// no memory for that, the line alone.
fn rendered_lines(
    alloc: Global,
    number: u64,
    request: &Snapshot,
    captured: &Captured,
    status: u16,
    limits: Limits,
) -> Result<String, AllocError> {
    let method = cut(alloc, request.method(), SHOWN)?;
    let url = cut(alloc, request.url(), SHOWN)?;
    let mapping = mapping_text(alloc, captured)?;
    let mut lines = request_line(
        alloc,
        Some(number),
        method.as_str(),
        url.as_str(),
        mapping.as_str(),
        status,
    )?;
    if let Ok(reason) = stub_reason(alloc, request, captured, status, limits) {
        lines.push_str(reason.as_str())?;
    }
    Ok(lines)
}

// Why a request was forwarded in vain.
fn failed_line(alloc: Global, request: &Snapshot, failure: &str) -> Result<String, AllocError> {
    let mut line = String::from_str(alloc, "failed ")?;
    line.push_str(cut(alloc, request.method(), SHOWN)?.as_str())?;
    line.push_str(" ")?;
    line.push_str(cut(alloc, request.url(), SHOWN)?.as_str())?;
    line.push_str(": error ")?;
    line.push_str(Buffer::new().format(ErrorCode::UpstreamFailed.number()))?;
    line.push_str(": ")?;
    line.push_str(ErrorCode::UpstreamFailed.title())?;
    line.push_str(": ")?;
    line.push_str(failure)?;
    line.push_str("\n")?;
    Ok(line)
}

fn line_of(
    alloc: Global,
    message: &Request<Bytes>,
    event: Option<(u64, &Event)>,
    status: u16,
) -> Result<String, AllocError> {
    let method = cut(alloc, message.method().as_str(), SHOWN)?;
    let target = message.uri().to_string(alloc)?;
    let url = cut(alloc, target.as_str(), SHOWN)?;
    let (number, answerer) = match event {
        Some((number, event)) => (Some(number), answerer_of(alloc, event)?),
        None => (None, String::from_str(alloc, unserved_answerer(message))?),
    };
    request_line(
        alloc,
        number,
        method.as_str(),
        url.as_str(),
        answerer.as_str(),
        status,
    )
}

// Why a request was answered so that made this event: where no mapping matched it, which ones come nearest; where the
// templates of its mapping were not run, what is too much.
fn reason_of(
    alloc: Global,
    event: &Event,
    status: u16,
    offer: Option<Offer>,
    limits: Limits,
) -> Result<String, RequestMatchError> {
    let Event::Serve { request, answer } = event else {
        return Ok(String::new(alloc));
    };
    match (answer, offer) {
        (ServeAnswer::Unmatched, Some(offer)) => nearest_lines(alloc, request.request(), offer),
        (ServeAnswer::Stub(captured), _) => Ok(stub_reason(
            alloc,
            request.request(),
            captured,
            status,
            limits,
        )?),
        _ => Ok(String::new(alloc)),
    }
}

// What is too much, where the templates of a mapping were not run.
fn stub_reason(
    alloc: Global,
    request: &Snapshot,
    captured: &Captured,
    status: u16,
    limits: Limits,
) -> Result<String, AllocError> {
    if status != OVER_BUDGET {
        return Ok(String::new(alloc));
    }
    over_budget_line(alloc, captured.mapping.spec.spec(), request, limits)
}

// By what a request was answered that made this event.
fn answerer_of(alloc: Global, event: &Event) -> Result<String, AllocError> {
    let Event::Serve {
        request: _request,
        answer,
    } = event
    else {
        return String::from_str(alloc, "admin");
    };
    match answer {
        ServeAnswer::Stub(captured) => mapping_text(alloc, captured),
        ServeAnswer::Proxy(_target) => String::from_str(alloc, "proxied"),
        ServeAnswer::Unmatched => String::from_str(alloc, "unmatched"),
    }
}

// What tells which mapping was captured.
fn mapping_text(alloc: Global, captured: &Captured) -> Result<String, AllocError> {
    let mut text = String::new(alloc);
    push_mapping(alloc, &mut text, &captured.mapping)?;
    Ok(text)
}

// By what a message was answered that made no event.
fn unserved_answerer(message: &Request<Bytes>) -> &'static str {
    if is_admin(message.uri().path()) {
        "admin"
    } else {
        "refused"
    }
}

// Whether there may be warnings: a mapping was posted, or a recording was stopped.
fn has_warnings(event: Option<(u64, &Event)>) -> bool {
    match event {
        Some((_number, event)) => matches!(
            event,
            Event::Add(_) | Event::Edit { .. } | Event::StopRecording { .. }
        ),
        None => false,
    }
}

// Whether a mapping was posted, and taken.
fn is_posted(event: Option<(u64, &Event)>) -> bool {
    match event {
        Some((_number, event)) => matches!(event, Event::Add(_) | Event::Edit { .. }),
        None => false,
    }
}

// Warnings of a mapping that was posted and taken. Not inlined: a function clears all its locals when it is entered,
// and most requests need none of these.
#[inline(never)]
fn posted_warnings(alloc: Global, message: &Request<Bytes>) -> Result<String, AllocError> {
    let call = call_of(alloc, message.method().as_str(), message.uri().path())?;
    let mut notes = Notes::new(alloc);
    notes.add_posted(alloc, call.as_str(), message.body().as_slice(), None)?;
    Ok(notes.into_string())
}

// Not inlined, as `posted_warnings`.
#[inline(never)]
fn replaced_warning(
    alloc: Global,
    message: &Request<Bytes>,
    event: &Event,
    replaced: u64,
) -> Result<String, AllocError> {
    let call = call_of(alloc, message.method().as_str(), message.uri().path())?;
    replaced_line(alloc, call.as_str(), event, replaced)
}

fn shared_name_warnings(
    alloc: Global,
    message: &Request<Bytes>,
    recorded: &[Mapping],
    live: &[Mapping],
) -> Result<String, AllocError> {
    let call = call_of(alloc, message.method().as_str(), message.uri().path())?;
    shared_name_lines(alloc, call.as_str(), recorded, live)
}
