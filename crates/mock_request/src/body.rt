// The body of a request as text.
ghost use Rattle.std.specs.Prelude.{◌≡◌, IfOk, string_bytes};
ghost use Rattle.std.specs.Str.Lossy.{utf8_lossy};

use crate::snapshot::Snapshot;
use std::alloc::{AllocError, Global};

/// The body read as UTF-8, with U+FFFD for what is not.
pub fn body_text(alloc: Global, snapshot: &Snapshot) -> Result<String, AllocError>
    ensures { IfOk result (λ text. string_bytes text ≡ utf8_lossy snapshot.now.body) }
{
    String::from_utf8_lossy(alloc, snapshot.body())
}
