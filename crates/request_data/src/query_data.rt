// A query's names and values as templates see them.
ghost use Rattle.std.specs.Prelude.{◌≡◌, ◌≤◌, [], ◌++◌, length, map, take, All, IfOk, IfSome, OnOk, IsTrue, string_bytes};
ghost use Rattle.std.specs.Str.Lossy.{utf8_lossy};
ghost use Rattle.data_tree.specs.Tree.{view};
ghost use Rattle.form_urlencoded.specs.Form.{decode, parse, plus_to_space};
ghost use Rattle.mock_request.specs.Query.{query_pairs, text_pair};
ghost use Rattle.request_data.specs.Grouped.{grouped};
ghost use Rattle.request_data.specs.Inner.Plain.{IsPlain};
ghost use Rattle.request_data.specs.Inner.Runs.{pairs_of_runs, pairs_under};

use crate::grouped::grouped_runs;
use crate::runs::Runs;
use crate::values::Values;
use data_tree::compact_text::CompactText;
use data_tree::data::Data;
use mock_request::snapshot::Snapshot;
use std::alloc::{AllocError, Global};
use std::str;

// Few queries have more names, or more values of their first name. Room for more is made as they come.
const USUAL_NAMES: usize = 8;

const USUAL_VALUES: usize = 16;

// A text of up to this number of bytes lies within its value.
const SHORT_BYTES: usize = 30;

// Room for such a text in two loads of 16 bytes.
const ARRAY_BYTES: usize = 32;

/// The decoded names in byte order, each with its first value and all its values. None where the URL has no query.
pub(crate) fn query_data(alloc: Global, snapshot: &Snapshot) -> Result<Data, AllocError>
    ensures { IfOk result (λ made. view made ≡ grouped (query_pairs snapshot.now.url)) }
{
    match snapshot.query() {
        Some(query) => grouped_runs(alloc, form_runs(alloc, query)?),
        None => Ok(Data::Fields(Vec::new(alloc))),
    }
}

// The decoded names and values of a form. A query mostly gives the values of one name one after the other, and then the
// name is decoded once. The first name has room for several: where a query has many values, they are mostly of one name.
fn form_runs(alloc: Global, form: &str) -> Result<Runs, AllocError>
    ensures { IfOk result (λ runs. pairs_of_runs runs ≡ map text_pair (parse form.now)) }
{
    let mut runs = Runs::with_room(alloc, USUAL_NAMES)?;
    let mut last: &[u8] = &[];
    let mut values = Values::with_room(alloc, USUAL_VALUES)?;
    for (name, value) in form_urlencoded::raw_pairs(form.as_bytes()) {
        if name != last {
            values = push_run(alloc, &mut runs, last, values)?;
            last = name;
        }
        values.push(decoded(alloc, value)?)?;
    }
    push_run(alloc, &mut runs, last, values)?;
    Ok(runs)
}

// Pushes the values of a name, if it has any. Gives a list for those of the next name.
fn push_run(
    alloc: Global,
    runs: &mut Runs,
    name: &[u8],
    values: Values,
) -> Result<Values, AllocError>
    ensures pushed { OnOk result (pairs_of_runs runs.new
        ≡ pairs_of_runs runs.old ++ pairs_under (utf8_lossy (decode name.now)) values) }
    ensures next { IfOk result (λ next. next ≡ []) }
{
    if values.is_empty() {
        return Ok(values);
    }
    runs.push(decoded(alloc, name)?, values)?;
    Ok(Values::new(alloc))
}

// The text of a name or a value. Most are short.
fn decoded(alloc: Global, encoded: &[u8]) -> Result<CompactText, AllocError>
    ensures { IfOk result (λ text. text ≡ utf8_lossy (decode encoded.now)) }
{
    if encoded.len() <= SHORT_BYTES {
        if let Some(text) = short_text(alloc, encoded)? {
            return Ok(text);
        }
    }
    Ok(CompactText::new(decoded_string(alloc, encoded)?))
}

// The text of a few bytes, if they are ASCII, with no byte escaped. It is made in an array, over whose bytes LLVM goes
// many at a time, and takes no memory.
fn short_text(alloc: Global, encoded: &[u8]) -> Result<Option<CompactText>, AllocError>
    requires { length encoded.now ≤ 32 }
    ensures { IfOk result (λ made. IfSome made (λ text. text ≡ utf8_lossy (decode encoded.now))) }
{
    let mut room = begun_by(encoded);
    if !is_plain(&room) {
        return Ok(None);
    }
    put_spaces(&mut room);
    // SAFETY: it is proved that the bytes are ASCII.
    let text = unsafe { str::from_utf8_unchecked(&room[..encoded.len()]) };
    Ok(Some(CompactText::from_str(alloc, text)?))
}

// An array that begins with these bytes.
fn begun_by(bytes: &[u8]) -> [u8; ARRAY_BYTES]
    requires { length bytes.now ≤ 32 }
    ensures { take (length bytes.now) result ≡ bytes.now }
{
    let mut room = [0; ARRAY_BYTES];
    room[..bytes.len()].copy_from_slice(bytes);
    room
}

fn decoded_string(alloc: Global, encoded: &[u8]) -> Result<String, AllocError>
    ensures { IfOk result (λ text. string_bytes text ≡ utf8_lossy (decode encoded.now)) }
{
    if is_plain(encoded) {
        let bytes = with_spaces(alloc, encoded)?;
        // SAFETY: it is proved that the bytes are ASCII.
        return Ok(unsafe { String::from_utf8_unchecked(bytes) });
    }
    form_urlencoded::decode(alloc, encoded)?.into_owned(alloc)
}

// Whether each byte is ASCII, and none begins an escape. It looks at all bytes, many at a time.
fn is_plain(encoded: &[u8]) -> bool
    ensures { IsTrue result → All IsPlain encoded.now }
{
    let mut plain = true;
    for &byte in encoded {
        plain = plain & (byte < 128 && byte != b'%');
    }
    plain
}

// The bytes, with a space for each `+`.
fn with_spaces(alloc: Global, encoded: &[u8]) -> Result<Vec<u8>, AllocError>
    ensures { IfOk result (λ made. made.items ≡ map plus_to_space encoded.now) }
{
    let mut bytes = Vec::from_slice(alloc, encoded)?;
    put_spaces(&mut bytes);
    Ok(bytes)
}

// Puts a space for each `+`. Over a slice it takes many bytes at a time.
fn put_spaces(bytes: &mut [u8])
    ensures { bytes.new ≡ map plus_to_space bytes.old }
{
    for index in 0..bytes.len() {
        bytes[index] = plus_to_space(bytes[index]);
    }
}

fn plus_to_space(byte: u8) -> u8
    ensures { result ≡ plus_to_space byte }
{
    if byte == b'+' { b' ' } else { byte }
}
