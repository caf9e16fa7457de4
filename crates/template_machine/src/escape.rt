//! Texts in which the special characters of HTML are escaped, as Handlebars escapes them.
ghost use Rattle.std.specs.Prelude.{◌≡◌, ◌++◌, ◌==◌, length, MatchOption, IfOk, OnOk, string_bytes};
ghost use Rattle.std.specs.Bool.{OnTrue};
ghost use lib.Utf8.{encode};
ghost use Rattle.helper_set.specs.Escape.{html_escaped_byte, html_escaped};

use std::alloc::{AllocError, Global};

/// Whether no character of the text is to be escaped.
pub fn is_plain(text: &str) -> bool
    ensures { OnTrue result (html_escaped text.now ≡ text.now) }
{
    text.as_bytes().iter().all(|byte| is_plain_byte(*byte))
}

fn is_plain_byte(byte: u8) -> bool
    ensures { result ≡ (length (html_escaped_byte byte) == 1) }
{
    !matches!(byte, b'&' | b'<' | b'>' | b'"' | b'\'' | b'`' | b'=')
}

/// The text with a reference in place of each special character.
pub fn escaped(alloc: Global, text: &str) -> Result<String, AllocError>
    ensures { IfOk result (λ made. string_bytes made ≡ html_escaped text.now) }
{
    let mut made = String::with_capacity(alloc, text.len())?;
    for c in text.chars() {
        push_escaped(c, &mut made)?;
    }
    Ok(made)
}

fn push_escaped(c: char, made: &mut String) -> Result<(), AllocError>
    ensures { OnOk result (string_bytes made.new ≡ string_bytes made.old ++ html_escaped (encode c)) }
{
    match reference(c) {
        Some(reference) => made.push_str(reference),
        None => made.push(c),
    }
}

// The character reference that stands for a special character.
#[tactic(auto, using(crate::proofs::Escapes::other_stays))]
fn reference(c: char) -> Option<&'static str>
    ensures { MatchOption result (html_escaped (encode c) ≡ encode c) (λ r. html_escaped (encode c) ≡ r.now) }
{
    match c {
        '&' => Some("&amp;"),
        '<' => Some("&lt;"),
        '>' => Some("&gt;"),
        '"' => Some("&quot;"),
        '\'' => Some("&#x27;"),
        '`' => Some("&#x60;"),
        '=' => Some("&#x3D;"),
        _ => None,
    }
}
