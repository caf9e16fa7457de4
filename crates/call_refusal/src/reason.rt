// A reason that fits a header.
ghost use Rattle.std.specs.Prelude.{◌≡◌, ◌≤◌, ◌∷◌, ◌++◌, [], IfOk, MatchOption, OnOk, filter, length, map, take};
ghost use Rattle.call_refusal.specs.Reason.{AreVisible, IsReason, begins_character, reason_of, shown};

use plain_text::octets::Octets;
use std::alloc::{AllocError, Global};
use std::marker::Model;

/// How many bytes a reason has at most.
pub const LENGTH_LIMIT: usize = 500;

/// Why a call is refused, as the value of a header, which contracts see as its bytes.
#[derive(Drop)]
pub struct Reason {
    bytes: Octets,
}

impl Model for Reason {
    ghost use Rattle.std.specs.Prelude.{List, ℕ};
    ghost use Rattle.call_refusal.specs.Reason.{IsReason};

    ghost Value = { List ℕ };

    ghost view = { λ reason. reason.bytes };

    ghost invariant = { λ reason. IsReason reason.bytes };
}

impl Reason {
    /// As much of the text as a reason may have, with a question mark for each other character; `None` where that is
    /// nothing.
    pub fn of(alloc: Global, text: &str) -> Result<Option<Reason>, AllocError>
        ensures { IfOk result (λ made. MatchOption made (reason_of text.now ≡ []) (λ reason. reason ≡ reason_of text.now)) }
    {
        let bytes = visible(alloc, text)?;
        if bytes.is_empty() {
            return Ok(None);
        }
        Ok(Some(Reason {
            bytes: Octets::from(bytes),
        }))
    }

    /// Its bytes, which aren't copied.
    pub fn into_octets(self) -> Octets
        ensures value { result ≡ self }
        ensures reason { IsReason result }
    {
        let Reason { bytes } = self;
        bytes
    }
}

// As much of the text as a reason may have.
fn visible(alloc: Global, text: &str) -> Result<Vec<u8>, AllocError>
    ensures value { IfOk result (λ bytes. bytes.items ≡ reason_of text.now) }
    ensures visible { IfOk result (λ bytes. AreVisible bytes.items) }
    ensures short { IfOk result (λ bytes. length bytes.items ≤ LENGTH_LIMIT) }
{
    let mut bytes = Vec::new(alloc);
    for byte in text.as_bytes() {
        add_visible(&mut bytes, *byte)?;
    }
    Ok(bytes)
}

// Adds what is shown for the byte, where it is the first of a character, and there is room.
fn add_visible(bytes: &mut Vec<u8>, byte: u8) -> Result<(), AllocError>
    requires { length bytes.old.items ≤ LENGTH_LIMIT }
    ensures value { OnOk result
        (bytes.new.items ≡ take LENGTH_LIMIT (bytes.old.items ++ map shown (filter begins_character (byte ∷ [])))) }
    ensures visible { OnOk result (AreVisible bytes.old.items → AreVisible bytes.new.items) }
    ensures short { OnOk result (length bytes.new.items ≤ LENGTH_LIMIT) }
{
    if !begins_character(byte) {
        return Ok(());
    }
    if bytes.len() >= LENGTH_LIMIT {
        return Ok(());
    }
    bytes.push(visible_byte(byte))?;
    Ok(())
}

// Whether it is the first byte of a character of UTF-8 (RFC 3629, section 3).
fn begins_character(byte: u8) -> bool
    ensures { result ≡ begins_character byte }
{
    byte < 0x80 || byte >= 0xc0
}

fn visible_byte(byte: u8) -> u8
    ensures { result ≡ shown byte }
{
    if byte < 0x20 || byte > 0x7e {
        return b'?';
    }
    byte
}
