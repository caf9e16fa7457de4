// From a JSON text straight to its value, where each number in it is whole.
ghost use Rattle.std.specs.Prelude.{◌≡◌, ◌<◌, length, Some, None, Err, IfOk, OnOk, IfSome, IsErrOf, IsTrue, option_map};
ghost use Rattle.std.specs.Prelude.{MatchResult, option_and_then, true, false};
ghost use Rattle.std.specs.Bool.{OnTrue};
ghost use Rattle.json.specs.Json.{value, items, members, read_key};
ghost use Rattle.serde_json.specs.Read.{converted, number_from};
ghost use Rattle.data_tree.specs.Tree.{view, items_view, members_view, no_members};
ghost use Rattle.data_tree.specs.Parts.{names_of};
ghost use Rattle.data_tree.specs.WellFormed.{IsAscending};
ghost use Rattle.json_bridge.specs.Reading.{IsJson, tree_of_text, whole_number};
ghost use Rattle.json_bridge.specs.Inner.Direct.{whole_of, put, put_all, tree_of_json, items_of_json, members_of_json};
ghost use Rattle.json_bridge.specs.Inner.Direct.{IsFoundAt, BelongsAt, EndBefore, AreFewInOrder};

use crate::error::JsonError;
use crate::next_step::after_byte;
use data_tree::compact_text::CompactText;
use data_tree::data::Data;
use fast_float::Numeral;
use json::{Reader, Scratch, Token};
use std::alloc::{AllocError, Global};
use std::cmp::Ordering;
use std::collections::BTreeMap;

// How deep lists and objects may nest.
pub(crate) const MAX_DEPTH: usize = 127;

// The most members that are put in order one after the other, with as many comparisons as there are pairs.
const FEW: usize = 16;

// Most objects have no more members. Room for them is made at once: a list that grows is moved.
const USUAL_MEMBERS: usize = 8;

/// The value of a JSON text. `NumberNotWhole` says that some number in it isn't whole or doesn't fit: the text has a
/// value all the same where that number is in a value of a name that is repeated, of which the last value counts.
///
/// The recursion is as deep as the text nests.
pub(crate) fn read_direct(alloc: Global, text: &str) -> Result<Data, JsonError>
    ensures value { IfOk result (λ d. tree_of_text text.now ≡ Some (view d)) }
    ensures not_json { IsErrOf result JsonError.NotJson → ¬ (IsJson text.now) }
{
    let mut scratch = Scratch::new(alloc);
    let mut reader = Reader::new(text, &mut scratch)?;
    let value = read(alloc, &mut reader, MAX_DEPTH)?;
    if reader.next().is_some() {
        return Err(JsonError::NotJson);
    }
    Ok(value)
}

// The next value of the reader.
#[cycle(read)]
#[inline(always)]
pub(crate) fn read(alloc: Global, reader: &mut Reader<'_>, depth: usize) -> Result<Data, JsonError>
    ensures ok { IfOk result (λ d. converted tree_of_json (value depth reader.old) ≡ Some (view d, reader.new)) }
    ensures shorter { OnOk result (length reader.new < length reader.old) }
    ensures not_json { result ≡ Err JsonError.NotJson → value depth reader.old ≡ None }
{
    let token = reader.next().ok_or(JsonError::NotJson)?;
    match token {
        Token::String(text) => Ok(Data::Text(CompactText::from_str(alloc, text)?)),
        Token::Number(text) => match whole_of(text) {
            Some(number) => Ok(Data::Number(number)),
            None => Err(JsonError::NumberNotWhole),
        },
        Token::Bool(truth) => Ok(Data::Truth(truth)),
        Token::Null => Ok(Data::Nothing),
        Token::EndObject | Token::EndArray | Token::Key(_) | Token::Bad => Err(JsonError::NotJson),
        Token::BeginArray => {
            if depth == 0 {
                return Err(JsonError::NotJson);
            }
            Ok(Data::List(read_items(alloc, reader, depth - 1)?))
        }
        Token::BeginObject => {
            if depth == 0 {
                return Err(JsonError::NotJson);
            }
            Ok(Data::Fields(read_members(alloc, reader, depth - 1)?))
        }
    }
}

#[cycle(read)]
#[inline(never)]
fn read_items(alloc: Global, reader: &mut Reader<'_>, depth: usize) -> Result<Vec<Data>, JsonError>
    ensures ok { IfOk result
        (λ found. converted items_of_json (items (value depth) (length reader.old) reader.old)
        ≡ Some (items_view found.items, reader.new)) }
    ensures shorter { OnOk result (length reader.new < length reader.old) }
    ensures not_json { result ≡ Err JsonError.NotJson
        → items (value depth) (length reader.old) reader.old ≡ None }
{
    let mut found = Vec::new(alloc);
    'items: while !reader.take_end_array() {
        let item = read(alloc, reader, depth)?;
        let Ok(()) = found.push(item) else {
            return Err(JsonError::OutOfMemory);
        };
    }
    Ok(found)
}

#[cycle(read)]
#[inline(never)]
fn read_members(
    alloc: Global,
    reader: &mut Reader<'_>,
    depth: usize,
) -> Result<Vec<(CompactText, Data)>, JsonError>
    ensures ok { IfOk result
        (λ found. converted (λ ms. members_of_json ms no_members)
        (members (value depth) (length reader.old) reader.old)
        ≡ Some (members_view found.items, reader.new)) }
    ensures shorter { OnOk result (length reader.new < length reader.old) }
    ensures not_json { result ≡ Err JsonError.NotJson
        → members (value depth) (length reader.old) reader.old ≡ None }
{
    let mut found = Vec::new(alloc);
    'members: while let Some(name) = next_name(reader)? {
        let key = CompactText::from_str(alloc, name)?;
        let member = read(alloc, reader, depth)?;
        add(&mut found, key, member)?;
    }
    Ok(finished(alloc, found)?)
}

// The name of an object's next member; none at its end.
#[inline(always)]
pub(crate) fn next_name<'a>(reader: &mut Reader<'a>) -> Result<Option<&'a str>, JsonError>
    ensures { MatchResult result
        (λ name. read_key reader.old ≡ Some (option_map (λ s. s.now) name, reader.new))
        (λ error. (error ≡ JsonError.NotJson) × (read_key reader.old ≡ None)) }
{
    match reader.next_key() {
        Ok(name) => Ok(name),
        Err(_invalid) => Err(JsonError::NotJson),
    }
}

// The number that a text of JSON's grammar spells, where it is whole and fits 64 bits.
pub(crate) fn whole_of(text: &str) -> Option<i128>
    ensures { IfSome result (λ number. whole_of text.now ≡ Some number) }
{
    match after_byte(text, '-') {
        Some(digits) => below_zero(&Numeral::scan(digits.as_bytes())),
        None => from_zero(&Numeral::scan(text.as_bytes())),
    }
}

fn below_zero(numeral: &Numeral<'_>) -> Option<i128>
    ensures { IfSome result
        (λ number. option_and_then whole_number (number_from true numeral.now) ≡ Some number) }
{
    match numeral.to_i64(true) {
        Some(number) if number < 0 => Some(i128::from(number)),
        _ => None,
    }
}

fn from_zero(numeral: &Numeral<'_>) -> Option<i128>
    ensures { IfSome result
        (λ number. option_and_then whole_number (number_from false numeral.now) ≡ Some number) }
{
    Some(i128::from(numeral.to_u64()?))
}

// One more member. A few are put where their names belong; the others are put in order when all are there.
fn add(
    found: &mut Vec<(CompactText, Data)>,
    name: CompactText,
    member: Data,
) -> Result<(), AllocError>
    requires { AreFewInOrder found.old.items }
    ensures put { OnOk result (put_all found.new.items no_members
        ≡ put name (view member) (put_all found.old.items no_members)) }
    ensures in_order { OnOk result (AreFewInOrder found.new.items) }
{
    make_room(found)?;
    if found.len() < FEW {
        put(found, name, member)?;
        return Ok(());
    }
    found.push((name, member))?;
    Ok(())
}

// Makes room before the first member: an object without members takes no memory.
fn make_room(found: &mut Vec<(CompactText, Data)>) -> Result<(), AllocError>
    ensures { found.new.items ≡ found.old.items }
{
    if found.is_empty() {
        found.reserve(USUAL_MEMBERS)?;
    }
    Ok(())
}

// The members that were added, in the order of their names.
fn finished(
    alloc: Global,
    found: Vec<(CompactText, Data)>,
) -> Result<Vec<(CompactText, Data)>, AllocError>
    requires { AreFewInOrder found.items }
    ensures { IfOk result (λ made. members_view made.items ≡ put_all found.items no_members) }
{
    if found.len() <= FEW {
        return Ok(found);
    }
    in_order(alloc, found)
}

// The members in the order of their names, each name once, with its last value.
pub(crate) fn in_order(
    alloc: Global,
    found: Vec<(CompactText, Data)>,
) -> Result<Vec<(CompactText, Data)>, AllocError>
    ensures { IfOk result (λ made. members_view made.items ≡ put_all found.items no_members) }
{
    if is_ascending(&found) {
        return Ok(found);
    }
    sorted(alloc, found)
}

// Whether each name is before the next.
fn is_ascending(members: &[(CompactText, Data)]) -> bool
    ensures { OnTrue result (IsAscending (names_of (members_view members.now))) }
{
    let mut rest = members;
    while let [(name, _), after @ ..] = rest {
        if let [(next, _), ..] = after {
            if name.as_str().cmp(next.as_str()) != Ordering::Less {
                return false;
            }
        }
        rest = after;
    }
    true
}

fn sorted(
    alloc: Global,
    found: Vec<(CompactText, Data)>,
) -> Result<Vec<(CompactText, Data)>, AllocError>
    ensures { IfOk result (λ made. members_view made.items ≡ put_all found.items no_members) }
{
    if found.len() <= FEW {
        return put_each(alloc, found);
    }
    let members = by_name(alloc, found)?;
    in_list(alloc, members)
}

// Each is put where its name belongs.
fn put_each(
    alloc: Global,
    found: Vec<(CompactText, Data)>,
) -> Result<Vec<(CompactText, Data)>, AllocError>
    ensures { IfOk result (λ made. members_view made.items ≡ put_all found.items no_members) }
{
    let mut made = Vec::with_capacity(alloc, found.len())?;
    for (name, member) in found {
        put(&mut made, name, member)?;
    }
    Ok(made)
}

// Puts the member where its name belongs, which mostly is after all others.
fn put(
    made: &mut Vec<(CompactText, Data)>,
    name: CompactText,
    member: Data,
) -> Result<(), AllocError>
    requires { IsAscending (names_of (members_view made.old.items)) }
    ensures { OnOk result (members_view made.new.items
        ≡ put name (view member) (members_view made.old.items)) }
{
    if end_before(made.as_slice(), name.as_str()) {
        made.push((name, member))?;
        return Ok(());
    }
    match place_of(made.as_slice(), name.as_str()) {
        Ok(index) => made[index].1 = member,
        Err(index) => made.insert(index, (name, member))?,
    }
    Ok(())
}

// Where the name is, or else where it belongs.
fn place_of(members: &[(CompactText, Data)], name: &str) -> Result<usize, usize>
    requires { IsAscending (names_of (members_view members.now)) }
    ensures { MatchResult result
        (λ index. IsFoundAt name.now index members.now) (λ index. BelongsAt name.now index members.now) }
{
    let mut index = 0;
    while index < members.len() {
        match name.cmp(members[index].0.as_str()) {
            Ordering::Less => return Err(index),
            Ordering::Equal => return Ok(index),
            Ordering::Greater => index += 1,
        }
    }
    Err(index)
}

// Whether the last of the members, if there is one, is before the name.
fn end_before(members: &[(CompactText, Data)], name: &str) -> bool
    ensures { IsTrue result → EndBefore members.now name.now }
{
    let count = members.len();
    if count == 0 {
        return true;
    }
    members[count - 1].0.as_str().cmp(name) == Ordering::Less
}

// Each name with its last value.
fn by_name(
    alloc: Global,
    found: Vec<(CompactText, Data)>,
) -> Result<BTreeMap<CompactText, Data>, AllocError>
    ensures { IfOk result (λ made. members_view made.entries ≡ put_all found.items no_members) }
{
    let mut members: BTreeMap<CompactText, Data> = BTreeMap::new(alloc);
    for (name, member) in found {
        drop(members.insert(name, member)?);
    }
    Ok(members)
}

fn in_list(
    alloc: Global,
    members: BTreeMap<CompactText, Data>,
) -> Result<Vec<(CompactText, Data)>, AllocError>
    ensures { IfOk result (λ made. members_view made.items ≡ members_view members.entries) }
{
    let mut made = Vec::with_capacity(alloc, members.len())?;
    for (name, member) in members {
        made.push((name, member))?;
    }
    Ok(made)
}
