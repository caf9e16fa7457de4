// Templates that are over the limits of a response for every request.
use crate::shown::joined;
use crate::templates::texts_of;
use itoa::Buffer;
use serde_json::Value;
use std::alloc::{AllocError, Global};
use stub_response::limits::{BYTE_LIMIT, STEP_LIMIT};
use template_machine::error::ProgramError;
use template_machine::program::Program;

/// No request has data of a smaller size: that of `GET /` without headers has 248.
const SMALLEST: u64 = 240;

/// What templates may take together over data of that size.
#[derive(Clone, Copy)]
struct Taken {
    steps: u128,
    bytes: u128,
}

/// A sentence, where the templates of the response are over the limits for every request.
pub(crate) fn always_over(alloc: Global, response: &Value) -> Result<Option<String>, AllocError> {
    let mut taken = Taken { steps: 0, bytes: 0 };
    let texts = texts_of(alloc, response)?;
    for text in texts.as_slice() {
        taken = with_text(alloc, taken, *text)?;
    }
    if taken.steps <= u128::from(STEP_LIMIT) && taken.bytes <= u128::from(BYTE_LIMIT) {
        return Ok(None);
    }
    Ok(Some(said(alloc, taken)?))
}

fn with_text(alloc: Global, taken: Taken, text: &str) -> Result<Taken, AllocError> {
    match Program::from_text(alloc, text) {
        Ok(program) => Ok(with_program(taken, &program)),
        Err(ProgramError::OutOfMemory) => Err(AllocError),
        // It is refused.
        Err(_error) => Ok(taken),
    }
}

fn with_program(taken: Taken, program: &Program) -> Taken {
    match program.budget().at(SMALLEST) {
        Some((steps, bytes)) => Taken {
            steps: taken.steps.saturating_add(steps),
            bytes: taken.bytes.saturating_add(bytes),
        },
        None => Taken {
            steps: u128::MAX,
            bytes: u128::MAX,
        },
    }
}

// Says what is too much, and not what is within its limit.
fn said(alloc: Global, taken: Taken) -> Result<String, AllocError> {
    let mut size = Buffer::new();
    let steps = said_if_over(alloc, " take ", taken.steps, " steps", STEP_LIMIT)?;
    let bytes = said_if_over(alloc, " write ", taken.bytes, " bytes", BYTE_LIMIT)?;
    let texts = [
        "every request is answered 500: even over data of size ",
        size.format(SMALLEST),
        ", and no request has less, the templates may",
        steps.as_str(),
        between(steps.as_str(), bytes.as_str()),
        bytes.as_str(),
    ];
    joined(alloc, texts.as_slice())
}

fn between(steps: &str, bytes: &str) -> &'static str {
    if steps.is_empty() || bytes.is_empty() {
        ""
    } else {
        " and"
    }
}

fn said_if_over(
    alloc: Global,
    verb: &str,
    taken: u128,
    unit: &str,
    limit: u64,
) -> Result<String, AllocError> {
    if taken <= u128::from(limit) {
        return Ok(String::new(alloc));
    }
    let mut number = Buffer::new();
    let mut limits_number = Buffer::new();
    let texts = [
        verb,
        number.format(taken),
        unit,
        " (limit ",
        limits_number.format(limit),
        ")",
    ];
    joined(alloc, texts.as_slice())
}
