// Why a text isn't what it is meant to be, in the words of what reads it.
use crate::shown::{joined, quoted};
use error_code::error_code::ErrorCode;
use itoa::Buffer;
use regex::Regex;
use serde_json::Value;
use std::alloc::{AllocError, Global};
use template_machine::error::ProgramError;
use template_machine::program::Program;

/// Why bytes aren't JSON, with the line and the column.
pub(crate) fn json_reason(alloc: Global, bytes: &[u8]) -> Result<Option<String>, AllocError> {
    match Value::from_slice(alloc, bytes) {
        Ok(_value) => Ok(None),
        Err(error) => if error.is_memory() {
            Err(AllocError)
        } else {
            let mut reason = format!(in alloc; "{error}")?;
            reason.push_str(json_hint(alloc, bytes))?;
            Ok(Some(reason))
        },
    }
}

/// What line and column don't show.
fn json_hint(alloc: Global, bytes: &[u8]) -> &'static str {
    if bytes.starts_with(&[0xef, 0xbb, 0xbf]) {
        ", for the text begins with a byte order mark"
    } else if str::from_utf8(bytes).is_err() {
        ", for the text isn't UTF-8"
    } else if is_too_deep(alloc, bytes) {
        ", for lists and objects nest over 127 deep"
    } else {
        ""
    }
}

/// How deep lists and objects may nest.
const DEPTH_LIMIT: usize = 127;

/// Whether the text is JSON as far as to a list or an object that nests too deep.
fn is_too_deep(alloc: Global, bytes: &[u8]) -> bool {
    let Some(front) = front_within_depth(bytes) else {
        return false;
    };
    match Value::from_slice(alloc, front) {
        Ok(_value) => false,
        Err(error) => error.is_eof(),
    }
}

/// What is before the first bracket that nests too deep, if there is one.
fn front_within_depth(bytes: &[u8]) -> Option<&[u8]> {
    let mut depth = 0usize;
    let mut is_in_text = false;
    let mut is_escaped = false;
    for (at, byte) in bytes.iter().enumerate() {
        if is_escaped {
            is_escaped = false;
        } else if is_in_text {
            is_escaped = *byte == b'\\';
            is_in_text = *byte != b'"';
        } else {
            match *byte {
                b'"' => is_in_text = true,
                b'[' | b'{' => {
                    if depth == DEPTH_LIMIT {
                        return bytes.get(..at);
                    }
                    depth = depth.saturating_add(1);
                }
                b']' | b'}' => depth = depth.saturating_sub(1),
                _ => {}
            }
        }
    }
    None
}

/// Why a text is no regular expression, or none for whole values.
pub(crate) fn pattern_reason(alloc: Global, text: &str) -> Result<Option<String>, AllocError> {
    match Regex::new(alloc, text) {
        Ok(_regex) => whole_pattern_reason(alloc, text),
        Err(regex::Error::OutOfMemory) => Err(AllocError),
        Err(error) => Ok(Some(format!(in alloc; "{error}")?)),
    }
}

/// Why the text is no regular expression between the marks of a value's beginning and end, where it is one by itself.
fn whole_pattern_reason(alloc: Global, text: &str) -> Result<Option<String>, AllocError> {
    let whole = joined(alloc, [r"\A(?:", text, r")\z"].as_slice())?;
    match Regex::new(alloc, whole.as_str()) {
        Ok(_regex) => Ok(None),
        Err(regex::Error::OutOfMemory) => Err(AllocError),
        Err(error) => {
            let shown = quoted(alloc, whole.as_str())?;
            let said = format!(in alloc; "{error}")?;
            let texts = ["it is compared as ", shown.as_str(), ": ", said.as_str()];
            Ok(Some(joined(alloc, texts.as_slice())?))
        }
    }
}

/// Why a text is no template, with the offset of the tag and its text. How a template's prints are escaped has no part
/// in which error it has.
pub(crate) fn template_reason(alloc: Global, text: &str) -> Result<Option<String>, AllocError> {
    match Program::from_text(alloc, text) {
        Ok(_program) => Ok(None),
        Err(ProgramError::OutOfMemory) => Err(AllocError),
        Err(error) => Ok(Some(placed(alloc, text, &error)?)),
    }
}

fn placed(alloc: Global, text: &str, error: &ProgramError) -> Result<String, AllocError> {
    let code = error.error_code();
    let title = code.title();
    let Some(at) = error.at() else {
        return String::from_str(alloc, title);
    };
    let mut digits = Buffer::new();
    let offset = digits.format(at);
    match text.get(at..) {
        Some(rest) => {
            let tag = tag_of(rest);
            let before = text.get(..at).unwrap_or("");
            let cause = cause_of(alloc, code, before, tag)?;
            let shown = quoted(alloc, tag)?;
            joined(
                alloc,
                [title, cause, ", at byte ", offset, ", in ", shown.as_str()].as_slice(),
            )
        }
        None => joined(alloc, [title, ", at byte ", offset].as_slice()),
    }
}

/// The cause of a tag's error in brackets, where it can be told, and what to write in its place.
fn cause_of(
    alloc: Global,
    code: ErrorCode,
    before: &str,
    tag: &str,
) -> Result<&'static str, AllocError> {
    match code {
        ErrorCode::UnclosedTag => Ok(
            " (there is no }}, or a quotation mark, or the {{/..}} of a block is missing)",
        ),
        ErrorCode::UnsupportedTag => if before.ends_with("\\") {
            Ok(" (a tag can't be escaped: no \\ may stand before it)")
        } else {
            let words = tag_words(alloc, content_of(tag))?;
            Ok(unsupported_cause(words.as_slice()))
        },
        _ => Ok(""),
    }
}

/// What is between the braces of a tag.
fn content_of(tag: &str) -> &str {
    let close = close_of(tag);
    let inner = tag.get(close.len()..).unwrap_or(tag);
    inner.strip_suffix(close).unwrap_or(inner)
}

/// The words of a tag. Between them are white space and parentheses, outside of texts in quotation marks and of
/// brackets.
fn tag_words(alloc: Global, content: &str) -> Result<Vec<&str>, AllocError> {
    let mut words = Vec::new(alloc);
    let mut start = 0usize;
    let mut closing: Option<u8> = None;
    for (at, byte) in content.as_bytes().iter().enumerate() {
        if closing.is_some() {
            if closing == Some(*byte) {
                closing = None;
            }
        } else if matches!(*byte, b' ' | b'\t' | b'\n' | b'\r' | b'(' | b')') {
            add_word(content.get(start..at), &mut words)?;
            start = at.saturating_add(1);
        } else {
            closing = closing_of(*byte, at == start);
        }
    }
    add_word(content.get(start..), &mut words)?;
    Ok(words)
}

fn add_word<'a>(word: Option<&'a str>, words: &mut Vec<&'a str>) -> Result<(), AllocError> {
    match word {
        Some(word) if !word.is_empty() => {
            words.push(word)?;
            Ok(())
        }
        _ => Ok(()),
    }
}

/// What closes a text in quotation marks, or brackets, that the byte opens.
fn closing_of(byte: u8, is_first: bool) -> Option<u8> {
    match byte {
        b'[' => Some(b']'),
        b'"' | b'\'' => if is_first { Some(byte) } else { None },
        _ => None,
    }
}

fn unsupported_cause(words: &[&str]) -> &'static str {
    let Some(first) = words.first() else {
        return "";
    };
    match first.strip_prefix("#") {
        Some(name) => block_cause(name, words),
        None => if *first == "else" {
            " (an else takes no words: write {{else}}{{#if ..}} .. {{/if}})"
        } else {
            other_cause(*first, words)
        },
    }
}

fn block_cause(name: &str, words: &[&str]) -> &'static str {
    match name {
        "if" | "unless" => opening_cause(
            words,
            " (only an each names its items: leave as |..| out)",
        ),
        "each" => opening_cause(
            words,
            " (a loop has one parameter, which isn't request or this: write as |item|)",
        ),
        "with" => " (there is no with: write each path in full)",
        _ => {
            " (blocks are if, unless and each: a helper's value is tested by {{#if (helper ..)}})"
        }
    }
}

/// Of a block that there is: a word, or else its parameters.
fn opening_cause(words: &[&str], of_parameters: &'static str) -> &'static str {
    let cause = word_cause(words);
    if cause.is_empty() && words.contains(&"as") {
        of_parameters
    } else {
        cause
    }
}

fn other_cause(first: &str, words: &[&str]) -> &'static str {
    if first.starts_with("/") {
        " (a close takes no words)"
    } else if first.starts_with("^") {
        " (write {{else}} or {{#unless ..}})"
    } else if first.starts_with("&") {
        " (write {{{..}}})"
    } else if first.starts_with(">") {
        " (there are no partials)"
    } else if first.starts_with("~") {
        " (white space is never removed: leave ~ out)"
    } else {
        word_cause(words)
    }
}

/// The cause, where it is a word.
fn word_cause(words: &[&str]) -> &'static str {
    for word in words {
        if is_named_argument(*word) {
            return " (named arguments aren't taken)";
        }
        if is_reserved(*word) {
            return " (request.id, request.clientIp and paths that begin with parameters are reserved)";
        }
    }
    ""
}

/// Whether the word is a name, a `=`, and what follows.
fn is_named_argument(word: &str) -> bool {
    match word.split_once('=') {
        Some((name, _value)) => !name.is_empty() && is_outside_marks(name),
        None => false,
    }
}

/// Whether the text is no part of a path or of a text in quotation marks.
fn is_outside_marks(text: &str) -> bool {
    !text
        .as_bytes()
        .iter()
        .any(|byte| matches!(*byte, b'.' | b'[' | b'"' | b'\''))
}

/// Whether the word is a path that templates reserve.
fn is_reserved(word: &str) -> bool {
    begins_with_path(word, "request.id")
        || begins_with_path(word, "request.clientIp")
        || begins_with_path(word, "parameters")
}

/// Whether the path is this one, or goes on from it.
fn begins_with_path(path: &str, front: &str) -> bool {
    match path.strip_prefix(front) {
        Some(rest) => rest.is_empty() || rest.starts_with("."),
        None => false,
    }
}

/// The tag at the start of the text.
fn tag_of(text: &str) -> &str {
    match end_of_tag(text) {
        Some(end) => text.get(..end).unwrap_or(text),
        None => text,
    }
}

fn end_of_tag(text: &str) -> Option<usize> {
    let close = close_of(text);
    let content = text.get(close.len()..)?;
    let at = match close_outside_texts(content, close) {
        Some(at) => at,
        None => content.find(close)?,
    };
    Some(at.saturating_add(close.len()).saturating_add(close.len()))
}

/// What closes the tag at the start of the text.
fn close_of(text: &str) -> &'static str {
    if text.starts_with("{{{") { "}}}" } else { "}}" }
}

/// Where the content of a tag has its first close that is no part of a text in quotation marks. A comment has no such
/// text.
fn close_outside_texts(content: &str, close: &str) -> Option<usize> {
    if content.starts_with("!") {
        return None;
    }
    let mut closing: Option<u8> = None;
    let mut is_first = true;
    for (at, byte) in content.as_bytes().iter().enumerate() {
        let is_in_text = matches!(closing, Some(b'"' | b'\''));
        if !is_in_text && stands_at(content, at, close) {
            return Some(at);
        }
        if closing.is_none() {
            closing = closing_of(*byte, is_first);
        } else if closing == Some(*byte) {
            closing = None;
        }
        is_first = matches!(*byte, b' ' | b'\t' | b'\n' | b'\r' | b'(');
    }
    None
}

fn stands_at(text: &str, at: usize, sought: &str) -> bool {
    match text.get(at..) {
        Some(rest) => rest.starts_with(sought),
        None => false,
    }
}
