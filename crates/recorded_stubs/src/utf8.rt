// Texts of bytes.
ghost use Rattle.std.specs.Prelude.{◌≡◌, true, false, IfOk, MatchOption};
ghost use Rattle.std.specs.Str.{is_utf8};

use plain_text::octets::Octets;
use plain_text::text::Text;
use std::alloc::{AllocError, Global};
use std::str;

pub(crate) fn is_utf8(bytes: &[u8]) -> bool
    ensures { result ≡ is_utf8 bytes.now }
{
    utf8(bytes).is_some()
}

/// The text of the bytes, where they are UTF-8.
pub(crate) fn utf8(bytes: &[u8]) -> Option<&str>
    ensures { MatchOption result (is_utf8 bytes.now ≡ false)
        (λ text. (is_utf8 bytes.now ≡ true) × (text.now ≡ bytes.now)) }
{
    match str::from_utf8(bytes) {
        Ok(text) => Some(text),
        Err(_error) => None,
    }
}

pub(crate) fn utf8_text(alloc: Global, bytes: &[u8]) -> Result<Text, AllocError>
    requires { is_utf8 bytes.now ≡ true }
    ensures { IfOk result (λ text. text ≡ bytes.now) }
{
    match utf8(bytes) {
        Some(text) => text_of(alloc, text),
        None => unreachable!(),
    }
}

pub(crate) fn text_of(alloc: Global, text: &str) -> Result<Text, AllocError>
    ensures { IfOk result (λ copy. copy ≡ text.now) }
{
    Ok(Text::from(String::from_str(alloc, text)?))
}

pub(crate) fn octets_of(alloc: Global, bytes: &[u8]) -> Result<Octets, AllocError>
    ensures { IfOk result (λ octets. octets ≡ bytes.now) }
{
    let mut copy = Vec::with_capacity(alloc, bytes.len())?;
    copy.extend_from_slice(bytes)?;
    Ok(Octets::from(copy))
}
