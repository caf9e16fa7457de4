//! What a value prints, its size, its items, and what steps find in it. A value is written as its JSON text, where an
//! object of `fields`, `items` and `text` is a named text; steps are a list of names and indices.

ghost use Rattle.std.specs.Prelude.{IfOk};
ghost use Rattle.data_tree.specs.Tree.{view};
ghost use Rattle.data_tree.specs.WellFormed.{IsWellFormed};

use crate::language::answers::{add_shown, text_cell};
use crate::language::numbers;
use case_table::cells::Cells;
use data_tree::compact_text::CompactText;
use data_tree::data::Data;
use data_tree::request_data::{DataError, RequestData};
use data_tree::step::{Path, Step};
use json_bridge::read::data_of_json;
use json_bridge::write::json_of;
use std::alloc::{AllocError, Global};

/// What the value prints, alone and in a list, its size, whether it counts as true, and how many items it has.
pub fn described(alloc: Global, text: &str) -> Result<String, AllocError> {
    let mut cells = Cells::new(alloc);
    cells.add_cell(printed(alloc, &value(alloc, text)?)?.as_str());
    cells.add_cell(printed(alloc, &list(alloc, text)?)?.as_str());
    add_measures(alloc, &mut cells, &value(alloc, text)?)?;
    cells.finish()
}

fn list(alloc: Global, text: &str) -> Result<Data, AllocError> {
    Ok(Data::List(vec![in alloc; value(alloc, text)?]?))
}

fn add_measures(alloc: Global, cells: &mut Cells, value: &Data) -> Result<(), AllocError> {
    add_shown(alloc, cells, value.size())?;
    add_shown(alloc, cells, value.is_true())?;
    add_shown(alloc, cells, value.items_len())
}

/// The JSON text of what the steps find.
pub fn found(alloc: Global, text: &str, steps: &str) -> Result<String, AllocError> {
    let value = formed(alloc, text)?;
    let path = path(alloc, steps)?;
    cell_of(alloc, value.at(path.steps()))
}

// The value, which keeps the rules of `Data`, as a look-up requires. Only the whole of it may be a named text.
fn formed(alloc: Global, text: &str) -> Result<Data, AllocError>
    ensures { IfOk result (λ value. IsWellFormed (view value)) }
{
    let plain = read(alloc, text)?;
    match parts_of_named(&plain) {
        Some((text, items, fields)) => named_text(alloc, text, items, fields),
        None => Ok(plain),
    }
}

fn read(alloc: Global, text: &str) -> Result<Data, AllocError>
    ensures { IfOk result (λ value. IsWellFormed (view value)) }
{
    match data_of_json(alloc, text)? {
        Some(value) => Ok(value),
        None => Ok(Data::Nothing),
    }
}

// The text, the items and the fields of an object of these three members, in byte order.
fn parts_of_named(value: &Data) -> Option<(&str, &Data, &Data)> {
    let Data::Fields(members) = value else {
        return None;
    };
    let [(_, fields), (_, items), member] = members.as_slice() else {
        return None;
    };
    Some((text_of(member)?, items, fields))
}

// The text of a member `text`.
fn text_of(member: &(CompactText, Data)) -> Option<&str> {
    match &member.1 {
        Data::Text(text) if member.0.as_str() == "text" => Some(text.as_str()),
        _ => None,
    }
}

fn copied(alloc: Global, value: &Data) -> Result<Data, AllocError>
    ensures { IfOk result (λ copy. IsWellFormed (view copy)) }
{
    read(alloc, json_of(alloc, value)?.as_str())
}

fn named_text(alloc: Global, text: &str, items: &Data, fields: &Data) -> Result<Data, AllocError>
    ensures { IfOk result (λ value. IsWellFormed (view value)) }
{
    named(
        alloc,
        CompactText::from_str(alloc, text)?,
        copied(alloc, items)?,
        copied(alloc, fields)?,
    )
}

fn named(alloc: Global, text: CompactText, items: Data, fields: Data) -> Result<Data, AllocError>
    requires items { IsWellFormed (view items) }
    requires fields { IsWellFormed (view fields) }
    ensures { IfOk result (λ value. IsWellFormed (view value)) }
{
    match (items, fields) {
        (Data::List(items), Data::Fields(fields)) => Data::named(alloc, text, items, fields),
        _ => Ok(Data::Nothing),
    }
}

/// The key and the JSON text of the item at the index.
pub fn item(alloc: Global, text: &str, index: &str) -> Result<String, AllocError> {
    let value = value(alloc, text)?;
    item_of(alloc, &value, numbers::index(index).unwrap_or(0))
}

fn item_of(alloc: Global, value: &Data, index: usize) -> Result<String, AllocError> {
    let mut cells = Cells::new(alloc);
    cells.add_cell(value.key(index).unwrap_or("none"));
    cells.add_cell(json_or_none(alloc, value.item(index))?.as_str());
    cells.finish()
}

fn json_or_none(alloc: Global, item: Option<&Data>) -> Result<String, AllocError> {
    match item {
        Some(item) => json_of(alloc, item),
        None => String::from_str(alloc, "none"),
    }
}

/// The size of a root that is this text, or of what is handed back, after the error's number.
pub fn root_size(alloc: Global, text: &str) -> Result<String, AllocError> {
    let text = CompactText::from_str(alloc, text)?;
    size_cells(alloc, RequestData::new(Data::Text(text)))
}

/// The error's number, or 0, and the size of the root.
pub fn size_cells(
    alloc: Global,
    made: Result<RequestData, DataError>,
) -> Result<String, AllocError> {
    let (error, size) = measured(made);
    let mut cells = Cells::new(alloc);
    add_shown(alloc, &mut cells, error)?;
    add_shown(alloc, &mut cells, size)?;
    cells.finish()
}

fn measured(made: Result<RequestData, DataError>) -> (u16, u64) {
    match made {
        Ok(made) => (0, made.root().size()),
        Err(error) => (error.error_code().number(), size_of_refused(&error)),
    }
}

fn size_of_refused(error: &DataError) -> u64 {
    match error {
        DataError::TooLarge(root) => root.size(),
        DataError::OutOfMemory => 0,
    }
}

/// A cell with what prints where something was found.
pub fn printed_cell(alloc: Global, found: Option<&Data>) -> Result<String, AllocError> {
    let text = printed(alloc, found.unwrap_or(&Data::Nothing))?;
    text_cell(alloc, text.as_str())
}

fn printed(alloc: Global, value: &Data) -> Result<String, AllocError> {
    let mut out = String::new(alloc);
    value.print_into(alloc, &mut out)?;
    Ok(out)
}

/// A cell with the JSON text of what was found.
pub fn cell_of(alloc: Global, found: Option<&Data>) -> Result<String, AllocError> {
    let json = json_of(alloc, found.unwrap_or(&Data::Nothing))?;
    text_cell(alloc, json.as_str())
}

/// The steps of a list of names and indices.
pub fn path(alloc: Global, steps: &str) -> Result<Path, AllocError> {
    let mut path = Vec::new(alloc);
    if let Data::List(items) = read(alloc, steps)? {
        for item in items {
            path.push(step(alloc, item)?)?;
        }
    }
    Path::new(path).clone()
}

// A number that is no index is the greatest one, which finds nothing in the tables.
fn step(alloc: Global, item: Data) -> Result<Step, AllocError> {
    match item {
        Data::Text(name) => Step::named(alloc, name.as_str()),
        Data::Number(index) => Ok(Step::Index(u32::try_from(index).unwrap_or(u32::MAX))),
        _ => Ok(Step::Index(u32::MAX)),
    }
}

/// The value of a JSON text. An object of `fields`, `items` and `text` is a named text, also in lists
/// and other objects.
pub fn value(alloc: Global, text: &str) -> Result<Data, AllocError> {
    with_names(alloc, &read(alloc, text)?)
}

// A copy in which each object of `fields`, `items` and `text` is a named text.
#[cycle(with_names)]
fn with_names(alloc: Global, value: &Data) -> Result<Data, AllocError> {
    match value {
        Data::List(items) => Ok(Data::List(each(alloc, items)?)),
        Data::Fields(members) => match parts_of_named(value) {
            Some((text, items, fields)) => named_text(alloc, text, items, fields),
            None => Ok(Data::Fields(each_member(alloc, members)?)),
        },
        _ => copied(alloc, value),
    }
}

#[cycle(with_names)]
fn each(alloc: Global, items: &Vec<Data>) -> Result<Vec<Data>, AllocError> {
    let mut made = Vec::new(alloc);
    for item in items {
        made.push(with_names(alloc, item)?)?;
    }
    Ok(made)
}

#[cycle(with_names)]
fn each_member(
    alloc: Global,
    members: &Vec<(CompactText, Data)>,
) -> Result<Vec<(CompactText, Data)>, AllocError> {
    let mut made = Vec::new(alloc);
    for (name, member) in members {
        made.push((
            CompactText::from_str(alloc, name.as_str())?,
            with_names(alloc, member)?,
        ))?;
    }
    Ok(made)
}
