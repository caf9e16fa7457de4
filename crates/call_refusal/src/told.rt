// What is told of a call that is refused.
use crate::methods::methods_of;
use crate::reason::Reason;
use crate::refusal::Refusal;
use admin_routes::error::AdminError;
use admin_routes::router::AdminRoutes;
use admin_routes::url::path_of;
use error_code::error_code::ErrorCode;
use itoa::Buffer;
use mapping_diagnosis::notes::Notes;
use mapping_diagnosis::shown::cut;
use std::alloc::{AllocError, Global};

/// How many characters of a method and of a path are told.
const SHOWN: usize = 1000;

/// What is told of a call that is refused.
#[derive(Drop)]
pub struct Told {
    /// Whole lines: which call is refused and why, and what is wrong with its body.
    pub lines: String,
    /// The same on one line, and without the call; none where nothing is left of it.
    pub reason: Option<Reason>,
}

impl Told {
    pub fn into_lines(self) -> String {
        let Told {
            lines,
            reason: _reason,
        } = self;
        lines
    }
}

/// Why the call with this method, URL and body is refused, for the server's user and for the client.
pub fn told_of(
    alloc: Global,
    routes: &AdminRoutes,
    method: &str,
    url: &str,
    body: &[u8],
    refusal: Refusal,
) -> Result<Told, AllocError> {
    let path = path_of(url);
    let call = call_of(alloc, method, path)?;
    let mut lines = String::from_str(alloc, "refused ")?;
    lines.push_str(call.as_str())?;
    lines.push_str(": ")?;
    lines.push_str(title_of(alloc, routes, path, refusal)?.as_str())?;
    lines.push_str("\n")?;
    lines.push_str(body_lines(alloc, call.as_str(), body, refusal)?.as_str())?;
    let reason = on_one_line(alloc, lines.as_str(), call.as_str())?;
    Ok(Told {
        lines,
        reason: Reason::of(alloc, reason.as_str())?,
    })
}

/// The method and the path, as they are told.
pub fn call_of(alloc: Global, method: &str, path: &str) -> Result<String, AllocError> {
    let mut call = cut(alloc, method, SHOWN)?;
    call.push_str(" ")?;
    call.push_str(cut(alloc, path, SHOWN)?.as_str())?;
    Ok(call)
}

// As `error 12: unsupported field`.
fn title_of(
    alloc: Global,
    routes: &AdminRoutes,
    path: &str,
    refusal: Refusal,
) -> Result<String, AllocError> {
    match refusal {
        Refusal::Foreign => String::from_str(alloc, "not for pages of other sites"),
        Refusal::NoCall(AdminError::UnknownCall) => unknown_title(alloc, routes, path),
        Refusal::NoCall(error) => error_title(alloc, error.error_code()),
        Refusal::Unanswered(code) => error_title(alloc, code),
    }
}

fn error_title(alloc: Global, code: ErrorCode) -> Result<String, AllocError> {
    let mut title = String::from_str(alloc, "error ")?;
    title.push_str(Buffer::new().format(code.number()))?;
    title.push_str(": ")?;
    title.push_str(code.title())?;
    Ok(title)
}

// Of a path that calls with other methods have, it names these.
fn unknown_title(alloc: Global, routes: &AdminRoutes, path: &str) -> Result<String, AllocError> {
    let mut title = error_title(alloc, ErrorCode::UnknownAdminCall)?;
    let methods = methods_of(alloc, routes, path)?;
    if !methods.is_empty() {
        title.push_str(": this path has the methods ")?;
        title.push_str(methods.as_str())?;
    }
    Ok(title)
}

// What is wrong with the body, if the call is refused for that.
fn body_lines(
    alloc: Global,
    call: &str,
    body: &[u8],
    refusal: Refusal,
) -> Result<String, AllocError> {
    let mut notes = Notes::new(alloc);
    match refusal {
        Refusal::NoCall(AdminError::Mapping(error)) => {
            notes.add_posted(alloc, call, body, Some(error))?
        }
        Refusal::NoCall(AdminError::Matcher(error)) => {
            notes.add_matcher(alloc, call, body, Some(error))?
        }
        Refusal::NoCall(AdminError::State(_error)) => notes.add_state(alloc, call, body)?,
        Refusal::NoCall(AdminError::Start(error)) => {
            add_start(alloc, &mut notes, call, body, error.error_code())?
        }
        // Only what starts a recording has a target.
        Refusal::Unanswered(ErrorCode::BadTarget) => {
            add_start(alloc, &mut notes, call, body, ErrorCode::BadTarget)?
        }
        _ => {}
    }
    Ok(notes.into_string())
}

// What is wrong with the body of a call that was to start a recording. `Notes` has its code from an answer.
fn add_start(
    alloc: Global,
    notes: &mut Notes,
    call: &str,
    body: &[u8],
    code: ErrorCode,
) -> Result<(), AllocError> {
    let mut answer = String::from_str(alloc, "{\"errors\":[{\"code\":")?;
    answer.push_str(Buffer::new().format(code.number()))?;
    answer.push_str(",\"title\":\"\"}]}")?;
    notes.add_recording(alloc, call, body, answer.as_bytes())
}

// The lines without the call, and with `; ` between two.
fn on_one_line(alloc: Global, lines: &str, call: &str) -> Result<String, AllocError> {
    let mut all = String::new(alloc);
    for line in lines.lines() {
        if !all.is_empty() {
            all.push_str("; ")?;
        }
        match line.split_once(call) {
            Some((front, rest)) => {
                if front.starts_with("warning") {
                    all.push_str("warning: ")?;
                }
                all.push_str(without_marks(rest))?;
            }
            None => all.push_str(line.trim_start())?,
        }
    }
    Ok(all)
}

// What follows a call in a line.
fn without_marks(rest: &str) -> &str {
    match rest.strip_prefix(": ") {
        Some(rest) => rest,
        None => rest.strip_prefix(", ").unwrap_or(rest.trim_start()),
    }
}
