// The line of a request.
ghost use Rattle.std.specs.Prelude.{◌≡◌, IfOk, string_bytes};
ghost use Rattle.request_log.specs.Line.{asked_text, number_text, request_line};

use itoa::Buffer;
use std::alloc::{AllocError, Global};

/// The line of a request, that was answered by what `answerer` says.
pub(crate) fn request_line(
    alloc: Global,
    number: Option<u64>,
    method: &str,
    url: &str,
    answerer: &str,
    status: u16,
) -> Result<String, AllocError>
    ensures { IfOk result
        (λ line. string_bytes line ≡ request_line number method.now url.now answerer.now status) }
{
    let mut line = asked_text(alloc, number, method, url)?;
    line.push_str(" ")?;
    line.push_str(answerer)?;
    line.push_str(" ")?;
    line.push_str(Buffer::new().format(status))?;
    line.push_str("\n")?;
    Ok(line)
}

fn asked_text(
    alloc: Global,
    number: Option<u64>,
    method: &str,
    url: &str,
) -> Result<String, AllocError>
    ensures { IfOk result (λ text. string_bytes text ≡ asked_text number method.now url.now) }
{
    let mut text = number_text(alloc, number)?;
    text.push_str(" ")?;
    text.push_str(method)?;
    text.push_str(" ")?;
    text.push_str(url)?;
    Ok(text)
}

fn number_text(alloc: Global, number: Option<u64>) -> Result<String, AllocError>
    ensures { IfOk result (λ text. string_bytes text ≡ number_text number) }
{
    match number {
        Some(number) => String::from_str(alloc, Buffer::new().format(number)),
        None => String::from_str(alloc, "-"),
    }
}
