// How long a value's compact JSON text is, without making it.
ghost use Rattle.std.specs.Prelude.{◌≡◌, ◌+◌, true, length, nat_eq, if◌then◌else◌};
ghost use Rattle.json.specs.Print.{quoted, escape_byte};
ghost use Rattle.data_tree.specs.Tree.{view, items_view, members_view};
ghost use Rattle.data_tree.specs.Json.{json, size, items_json, members_json};
ghost use Rattle.data_tree.specs.Capped.{capped};

use crate::compact_text::CompactText;
use crate::data::Data;
use crate::parts::first_text;
use crate::plain::is_plain;
use itoa::Buffer;

impl Data {
    /// The length of the compact JSON text in bytes, plus 1; 2^64 - 1 where it is more. Looks at each byte
    /// once and takes no memory. The recursion is as deep as lists, objects and named texts nest in the
    /// value.
    pub fn size(&self) -> u64
        ensures { result ≡ capped (size (view self.now)) }
    {
        json_len(self).saturating_add(1)
    }
}

#[cycle(json_len)]
fn json_len(value: &Data) -> u64
    ensures { result ≡ capped (length (json (view value.now))) }
{
    match value {
        Data::Nothing => 4,
        Data::Truth(truth) => if *truth { 4 } else { 5 },
        Data::Number(number) => Buffer::new().format(*number).len() as u64,
        Data::Text(text) => quoted_len(text.as_str()),
        Data::List(items) => bracketed_len(items.len(), items_len(items)),
        Data::Fields(fields) => bracketed_len(fields.len(), members_len(fields)),
        Data::Named(parts) => {
            let (text, items, fields) = &**parts;
            bracketed_len(fields.len(), members_len(fields))
                .saturating_add(bracketed_len(items.len(), items_len(items)))
                .saturating_add(quoted_len(text.as_str()))
                // `{"fields":`, `,"items":`, `,"text":` and `}`.
                .saturating_add(28)
        }
        Data::Values(items) => {
            bracketed_len(items.len(), items_len(items))
                .saturating_add(quoted_len(first_text(items.as_slice())))
                // `{"fields":{},"items":`, `,"text":` and `}`.
                .saturating_add(30)
        }
    }
}

// Brackets round parts that were counted with a comma before each: the first part has none.
fn bracketed_len(count: usize, len: u64) -> u64
    ensures { result ≡ (if nat_eq count 0 then 2 else capped (len + 1)) }
{
    if count == 0 { 2 } else { len.saturating_add(1) }
}

// Each item with a comma before it.
#[cycle(json_len)]
fn items_len(items: &Vec<Data>) -> u64
    ensures { result ≡ capped (length (items_json true (items_view items.now.items))) }
{
    let mut len = 0u64;
    for item in items {
        len = len.saturating_add(1).saturating_add(json_len(item));
    }
    len
}

// Each member with a comma before it.
#[cycle(json_len)]
fn members_len(members: &Vec<(CompactText, Data)>) -> u64
    ensures { result ≡ capped (length (members_json true (members_view members.now.items))) }
{
    let mut len = 0u64;
    for (name, value) in members {
        len = len
            .saturating_add(2)
            .saturating_add(quoted_len(name.as_str()))
            .saturating_add(json_len(value));
    }
    len
}

// With the quotes. In most texts nothing is to be escaped.
fn quoted_len(text: &str) -> u64
    ensures { result ≡ capped (length (quoted text.now)) }
{
    if is_plain(text) {
        return (text.len() as u64).saturating_add(2);
    }
    escaped_text_len(text)
}

fn escaped_text_len(text: &str) -> u64
    ensures { result ≡ capped (length (quoted text.now)) }
{
    let mut len = 2u64;
    for byte in text.as_bytes() {
        len = len.saturating_add(escaped_len(*byte));
    }
    len
}

// The bytes that a byte is escaped as.
#[tactic(auto, unfolding(json::specs::Print::escape_byte))]
fn escaped_len(byte: u8) -> u64
    ensures { result ≡ length (escape_byte byte) }
{
    match byte {
        b'"' | b'\\' | 8 | 9 | 10 | 12 | 13 => 2,
        0..32 => 6,
        _ => 1,
    }
}
