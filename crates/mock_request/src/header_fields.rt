// The headers of a request as names and texts.
ghost use Rattle.std.specs.Prelude.{◌≡◌, IfOk};
ghost use Rattle.mock_request.specs.HeaderFields.{header_pairs};
ghost use Rattle.mock_request.specs.Values.{pairs_of};

use crate::snapshot::Snapshot;
use std::alloc::{AllocError, Global};

/// The name in lower case and the text of each header, in their order.
pub fn header_pairs(alloc: Global, snapshot: &Snapshot) -> Result<Vec<(String, String)>, AllocError>
    ensures { IfOk result (λ pairs. pairs_of pairs.items ≡ header_pairs snapshot.now.headers) }
{
    let mut pairs = Vec::new(alloc);
    for index in 0..snapshot.header_count() {
        if let Some((name, value)) = snapshot.header(index) {
            pairs.push((
                String::from_str(alloc, name)?,
                String::from_utf8_lossy(alloc, value)?,
            ))?;
        }
    }
    Ok(pairs)
}
