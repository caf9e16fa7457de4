// The header lines of a response.
ghost use Rattle.std.specs.Prelude.{◌≡◌, ◌≤◌, ◌↔◌, IfOk, IsTrue};
ghost use Rattle.json_reading.specs.Fields.{each_item};
ghost use Rattle.response_json.specs.Inner.Counts.{line_count, count_in};
ghost use Rattle.response_json.specs.Reading.{headers_of, lines_in, lines_at, lines_of, line_of, joined, within};
ghost use Rattle.response_json.specs.Reading.{name_of};
ghost use Rattle.serde_json.specs.View.{view, items_view, members_view};

use json_reading::fields::text_of;
use json_reading::kind::Kind;
use json_reading::reading::{Reading, both, push};
use mapping_model::field_name::FieldName;
use mapping_model::header_lines::{HEADER_LIMIT, HeaderLine, HeaderLines};
use plain_text::items::Items;
use plain_text::text::Text;
use serde_json::{Map, Value};
use std::alloc::{AllocError, Global};

/// The lines of an object whose members are a header each. Each line has a copy of its name, so lines are counted
/// before any is read.
pub fn headers_of(alloc: Global, value: &Value) -> Result<Reading<HeaderLines<Text>>, AllocError>
    ensures { IfOk result (λ headers. headers ≡ headers_of (view value.now)) }
{
    match value {
        Value::Object(members) => if has_room(members) {
            Ok(within(lines_in(alloc, members)?))
        } else {
            Ok(Reading::Wrong(Kind::Misshapen))
        },
        _ => Ok(Reading::Wrong(Kind::Misshapen)),
    }
}

/// Whether the members are no more lines than a response may have.
fn has_room(members: &Map<String, Value>) -> bool
    ensures { IsTrue result ↔ (count_in (members_view members.now.entries) ≤ HEADER_LIMIT) }
{
    let mut left = HEADER_LIMIT;
    for (_name, value) in members.iter() {
        let count = line_count(value);
        if count > left {
            return false;
        }
        left -= count;
    }
    true
}

fn line_count(value: &Value) -> usize
    ensures { result ≡ line_count (view value.now) }
{
    match value {
        Value::Array(values) => values.len(),
        _ => 1,
    }
}

fn within(lines: Reading<Items<HeaderLine<Text>>>) -> Reading<HeaderLines<Text>>
    ensures { result ≡ within lines }
{
    match lines {
        Reading::Read(lines) => match HeaderLines::new(lines.into_vec()) {
            Some(headers) => Reading::Read(headers),
            None => Reading::Wrong(Kind::Misshapen),
        },
        Reading::Wrong(kind) => Reading::Wrong(kind),
    }
}

fn lines_in(
    alloc: Global,
    members: &Map<String, Value>,
) -> Result<Reading<Items<HeaderLine<Text>>>, AllocError>
    ensures { IfOk result (λ lines. lines ≡ lines_in (members_view members.now.entries)) }
{
    let mut lines = Reading::Read(Items::from(Vec::new(alloc)));
    for (name, value) in members.iter() {
        lines = joined(lines, lines_at(alloc, name.as_str(), value)?)?;
    }
    Ok(lines)
}

fn joined(
    lines: Reading<Items<HeaderLine<Text>>>,
    others: Reading<Items<HeaderLine<Text>>>,
) -> Result<Reading<Items<HeaderLine<Text>>>, AllocError>
    ensures { IfOk result (λ both. both ≡ joined lines others) }
{
    match both(lines, others) {
        Reading::Read((lines, others)) => {
            let mut lines = lines.into_vec();
            let mut others = others.into_vec();
            lines.append(&mut others)?;
            Ok(Reading::Read(Items::from(lines)))
        }
        Reading::Wrong(kind) => Ok(Reading::Wrong(kind)),
    }
}

fn lines_at(
    alloc: Global,
    name: &str,
    value: &Value,
) -> Result<Reading<Items<HeaderLine<Text>>>, AllocError>
    ensures { IfOk result (λ lines. lines ≡ lines_at name.now (view value.now)) }
{
    match field_name(alloc, name)? {
        Some(name) => lines_of(alloc, &name, value),
        None => Ok(Reading::Wrong(Kind::Misshapen)),
    }
}

fn field_name(alloc: Global, name: &str) -> Result<Option<FieldName>, AllocError>
    ensures { IfOk result (λ found. found ≡ name_of name.now) }
{
    Ok(FieldName::new(Text::from(String::from_str(alloc, name)?)))
}

fn lines_of(
    alloc: Global,
    name: &FieldName,
    value: &Value,
) -> Result<Reading<Items<HeaderLine<Text>>>, AllocError>
    ensures { IfOk result (λ lines. lines ≡ lines_of name.now (view value.now)) }
{
    match value {
        Value::Array(values) => each_line(alloc, name, values),
        value => push(
            Reading::Read(Items::from(Vec::new(alloc))),
            line_of(alloc, name, value)?,
        ),
    }
}

fn each_line(
    alloc: Global,
    name: &FieldName,
    values: &Vec<Value>,
) -> Result<Reading<Items<HeaderLine<Text>>>, AllocError>
    ensures { IfOk result (λ lines. lines ≡ each_item (line_of name.now) (items_view values.now.items)) }
{
    let mut lines = Reading::Read(Items::from(Vec::new(alloc)));
    for value in values {
        lines = push(lines, line_of(alloc, name, value)?)?;
    }
    Ok(lines)
}

fn line_of(
    alloc: Global,
    name: &FieldName,
    value: &Value,
) -> Result<Reading<HeaderLine<Text>>, AllocError>
    ensures { IfOk result (λ line. line ≡ line_of name.now (view value.now)) }
{
    match text_of(alloc, value)? {
        Reading::Read(value) => Ok(Reading::Read(HeaderLine {
            name: name.clone()?,
            value,
        })),
        Reading::Wrong(kind) => Ok(Reading::Wrong(kind)),
    }
}
