// Parts of the values that are answered.
ghost use Rattle.std.specs.Prelude.{◌≡◌, IfOk, OnOk, string_bytes};
ghost use Rattle.admin_json.specs.Written.{json_of_texts, only_member};
ghost use Rattle.serde_json.specs.Data.{put};
ghost use Rattle.serde_json.specs.View.{view, members_view};

use plain_text::text::Text;
use serde_json::{Map, Value};
use std::alloc::{AllocError, Global};

/// Writes the value at the name, which isn't copied.
pub(crate) fn put_owned(
    members: &mut Map<String, Value>,
    name: String,
    value: Value,
) -> Result<(), AllocError>
    ensures { OnOk result (members_view members.new.entries
        ≡ put (string_bytes name) (view value) (members_view members.old.entries)) }
{
    drop(members.insert(name, value)?);
    Ok(())
}

/// An object with one member.
pub(crate) fn only_member(alloc: Global, name: &str, value: Value) -> Result<Value, AllocError>
    ensures { IfOk result (λ made. view made ≡ only_member name.now (view value)) }
{
    let mut members = Map::new(alloc);
    serde_json::put(&mut members, alloc, name, value)?;
    Ok(Value::Object(members))
}

/// A list of texts, which aren't copied.
pub(crate) fn texts_value(alloc: Global, texts: Vec<Text>) -> Result<Value, AllocError>
    ensures { IfOk result (λ value. view value ≡ json_of_texts texts.items) }
{
    let mut values = Vec::with_capacity(alloc, texts.len())?;
    for text in texts {
        values.push(Value::String(text.into_string()))?;
    }
    Ok(Value::Array(values))
}
