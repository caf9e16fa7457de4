//! Helpers: what they take, and what they give.

use crate::language::answers::{add_shown, shown};
use crate::language::values::{cell_of, value};
use case_table::cells::Cells;
use data_tree::compact_text::CompactText;
use data_tree::data::Data;
use helper_set::apply::apply;
use helper_set::helper::Helper;
use helper_set::kind::Kind;
use helper_set::signature::{Parameter, signature};
use helper_set::value::{MadeValue, Value};
use std::alloc::{AllocError, Global};
use std::borrow::CowStr;

/// The JSON text of what the helper makes of the arguments, JSON texts: a text is given as a text, `true` and `false`
/// to `not` as truths, and all else as data, an object of `fields`, `items` and `text` as a named text.
pub fn result(alloc: Global, name: &str, first: &str, second: &str) -> Result<String, AllocError> {
    let Some(helper) = Helper::from_name(name) else {
        return Ok(String::new(alloc));
    };
    match (value(alloc, first)?, value(alloc, second)?) {
        (Data::Text(first), Data::Text(second)) => {
            of_texts(alloc, helper, first.as_str(), second.as_str())
        }
        (Data::Text(text), _) => of_text(alloc, helper, text.as_str()),
        (data, _) => of_data(alloc, helper, data),
    }
}

fn of_data(alloc: Global, helper: Helper, data: Data) -> Result<String, AllocError> {
    match (helper, data) {
        (Helper::Not, Data::Truth(truth)) => negated(alloc, truth),
        (Helper::Size, data) => size(alloc, &data),
        _ => Ok(String::new(alloc)),
    }
}

fn negated(alloc: Global, truth: bool) -> Result<String, AllocError> {
    cell(alloc, apply(alloc, Helper::Not, &[Value::Truth(truth)])?)
}

fn of_text(alloc: Global, helper: Helper, text: &str) -> Result<String, AllocError> {
    match helper {
        Helper::Upper
        | Helper::Lower
        | Helper::Trim
        | Helper::Size
        | Helper::Base64
        | Helper::UrlEncode => cell(alloc, apply(alloc, helper, &[Value::Text(text)])?),
        _ => Ok(String::new(alloc)),
    }
}

fn of_texts(
    alloc: Global,
    helper: Helper,
    first: &str,
    second: &str,
) -> Result<String, AllocError> {
    match helper {
        Helper::Eq | Helper::Neq | Helper::Contains | Helper::DefaultIfEmpty => {
            let arguments = [Value::Text(first), Value::Text(second)];
            cell(alloc, apply(alloc, helper, &arguments)?)
        },
        _ => Ok(String::new(alloc)),
    }
}

fn size(alloc: Global, data: &Data) -> Result<String, AllocError> {
    cell(
        alloc,
        apply(alloc, Helper::Size, &[Value::Datum(Some(data))])?,
    )
}

fn cell(alloc: Global, made: MadeValue<'_>) -> Result<String, AllocError> {
    let data = data_of(alloc, made)?;
    cell_of(alloc, Some(&data))
}

fn data_of(alloc: Global, made: MadeValue<'_>) -> Result<Data, AllocError> {
    match made {
        MadeValue::Text(CowStr::Owned(text)) => Ok(Data::Text(CompactText::new(text))),
        MadeValue::Text(CowStr::Borrowed(text)) => Ok(Data::Text(CompactText::from_str(
            alloc, text,
        )?)),
        MadeValue::Number(number) => Ok(Data::Number(i128::from(number))),
        MadeValue::Truth(truth) => Ok(Data::Truth(truth)),
    }
}

/// What the helper accepts as its first and its second argument, the kind that it gives, and how its result grows.
pub fn signature_of(alloc: Global, name: &str) -> Result<String, AllocError> {
    let Some(helper) = Helper::from_name(name) else {
        return String::from_str(alloc, "\tnone");
    };
    let signature = signature(helper);
    let mut cells = Cells::new(alloc);
    add_shown(alloc, &mut cells, signature.first)?;
    add_shown(alloc, &mut cells, signature.second)?;
    add_shown(alloc, &mut cells, signature.gives)?;
    add_shown(alloc, &mut cells, signature.growth.times)?;
    add_shown(alloc, &mut cells, signature.growth.plus)?;
    cells.finish()
}

/// The kinds that a parameter accepts: each, all but text, data or text, or a truth.
pub fn accepted(alloc: Global, name: &str) -> Result<String, AllocError> {
    let parameter = match name {
        "Any" => Parameter::Any,
        "NoText" => Parameter::NoText,
        "DataOrText" => Parameter::DataOrText,
        _ => Parameter::Of(Kind::Truth),
    };
    let mut kinds = Cells::new(alloc);
    kinds.add("\t");
    for kind in [Kind::Data, Kind::Text, Kind::Number, Kind::Truth] {
        if parameter.accepts(kind) {
            kinds.add(" ");
            kinds.add(shown(alloc, kind)?.as_str());
        }
    }
    kinds.finish()
}
