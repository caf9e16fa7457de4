// From a value to its JSON text.
ghost use Rattle.std.specs.Prelude.{◌≡◌, ◌≤◌, false, Some, IfOk, string_bytes};
ghost use Rattle.data_tree.specs.Json.{json};
ghost use Rattle.data_tree.specs.Tree.{view};
ghost use Rattle.data_tree.specs.WellFormed.{IsWellFormed};
ghost use Rattle.json_bridge.specs.Reading.{tree_of_text};
ghost use Rattle.json_bridge.specs.Writing.{has_named, depth};

use data_tree::data::Data;
use std::alloc::{AllocError, Global};

/// The value's compact JSON text: no blanks, names in the order that the value has them in, and the escapes
/// of `serde_json`.
pub fn json_of(alloc: Global, value: &Data) -> Result<String, AllocError>
    ensures text { IfOk result (λ text. string_bytes text ≡ json (view value.now)) }
    // A named text reads back as the object that its text is, and what nests deeper isn't read.
    ensures reads_back { IfOk result (λ text. IsWellFormed (view value.now)
        → has_named (view value.now) ≡ false → depth (view value.now) ≤ 127
        → tree_of_text (string_bytes text) ≡ Some (view value.now)) }
{
    let mut text = String::new(alloc);
    value.json_into(alloc, &mut text)?;
    Ok(text)
}
