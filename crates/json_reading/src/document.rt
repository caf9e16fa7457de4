// From bytes to a JSON value.
ghost use Rattle.std.specs.Prelude.{IfOk, MatchOption};
ghost use Rattle.json_reading.specs.Document.{IsDocument};
ghost use Rattle.serde_json.specs.Data.{Data};
ghost use Rattle.serde_json.specs.View.{view};

use serde_json::Value;
use std::alloc::{AllocError, Global};

/// The value of a JSON document, if the bytes are one. A text that nests over 127 deep is none.
pub fn document_of(alloc: Global, bytes: &[u8]) -> Result<Option<Value>, AllocError>
    ensures { IfOk result (λ found. MatchOption found ((d : Data) → ¬ (IsDocument bytes.now d))
        (λ value. IsDocument bytes.now (view value))) }
{
    match Value::from_slice(alloc, bytes) {
        Ok(value) => Ok(Some(value)),
        Err(error) => if error.is_memory() {
            Err(AllocError)
        } else {
            Ok(None)
        },
    }
}
