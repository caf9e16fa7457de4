// The search for what is wrong.
use crate::combination::combination_fault;
use crate::fault::{Fault, Found};
use crate::leaf::{Leaf, leaf_fault};
use crate::numbers::number_fault;
use crate::part::{Field, Part, field_of};
use crate::shown::joined;
use crate::sought::Sought;
use serde_json::{Map, Value};
use std::alloc::Global;

/// The first value of a mapping that is wrong in the sought way.
pub(crate) fn mapping_fault(alloc: Global, value: &Value, sought: Sought) -> Found {
    if sought == Sought::Template {
        template_fault(alloc, value)
    } else {
        part_fault(alloc, Part::Mapping, value, sought)
    }
}

/// The first value that is wrong in the sought way. The recursion is as deep as the part nests.
#[cycle(part_fault)]
pub(crate) fn part_fault(alloc: Global, part: Part, value: &Value, sought: Sought) -> Found {
    match value {
        Value::Object(members) if part.has_members() => {
            let found = member_fault(alloc, part, members, sought)?;
            if found.is_some() {
                Ok(found)
            } else {
                combination_fault(alloc, part, value, sought)
            }
        }
        Value::Array(items) => match part.item() {
            Some(item) => item_fault(alloc, item, items, sought),
            None => single_fault(alloc, part, value, sought),
        },
        _ => single_fault(alloc, part, value, sought),
    }
}

#[cycle(part_fault)]
fn member_fault(alloc: Global, part: Part, members: &Map<String, Value>, sought: Sought) -> Found {
    for (name, member) in members.iter() {
        let field = field_of(part, name.as_str(), members);
        let found = match field.part(sought) {
            Some(part) => part_fault(alloc, part, member, sought)?,
            None => field_fault(alloc, field, member, sought)?,
        };
        if let Some(fault) = found {
            return Ok(Some(fault.under(alloc, name.as_str())?));
        }
    }
    Ok(None)
}

#[cycle(part_fault)]
fn item_fault(alloc: Global, part: Part, items: &Vec<Value>, sought: Sought) -> Found {
    for (index, item) in items.iter().enumerate() {
        if let Some(fault) = part_fault(alloc, part, item, sought)? {
            return Ok(Some(fault.under_index(alloc, index)?));
        }
    }
    Ok(None)
}

/// What is wrong with a member that isn't searched as a part.
fn field_fault(alloc: Global, field: Field, member: &Value, sought: Sought) -> Found {
    match (field, sought) {
        (Field::Ignored, _) => Ok(None),
        (_, Sought::Number) => number_fault(alloc, member),
        (Field::Unsupported(words), Sought::Field) => {
            let wanted = joined(
                alloc,
                ["one of the fields ", words, ", and not this one"].as_slice(),
            )?;
            Ok(Some(Fault::of(alloc, wanted.as_str(), member)?))
        }
        _ => Ok(None),
    }
}

/// What is wrong with a value that isn't searched itself.
fn single_fault(alloc: Global, part: Part, value: &Value, sought: Sought) -> Found {
    if sought == Sought::Number {
        return number_fault(alloc, value);
    }
    if let Some(leaf) = part.leaf(value) {
        return leaf_fault(alloc, leaf, value, sought);
    }
    if sought == Sought::Shape {
        Ok(Some(Fault::of(alloc, part.wanted(), value)?))
    } else {
        Ok(None)
    }
}

/// The first template that isn't one: those of the headers by their names, then the body.
fn template_fault(alloc: Global, mapping: &Value) -> Found {
    let Some(response) = mapping.get("response") else {
        return Ok(None);
    };
    let found = match fault_at(alloc, response, "headers", Part::Headers)? {
        Some(fault) => Some(fault),
        None => fault_at(alloc, response, "body", Part::Leaf(Leaf::Source))?,
    };
    match found {
        Some(fault) => Ok(Some(fault.under(alloc, "response")?)),
        None => Ok(None),
    }
}

fn fault_at(alloc: Global, response: &Value, name: &str, part: Part) -> Found {
    let Some(value) = response.get(name) else {
        return Ok(None);
    };
    match part_fault(alloc, part, value, Sought::Template)? {
        Some(fault) => Ok(Some(fault.under(alloc, name)?)),
        None => Ok(None),
    }
}
