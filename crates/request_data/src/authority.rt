// A request's `host` header.
ghost use Rattle.std.specs.Prelude.{◌≡◌, IfOk, string_bytes};
ghost use Rattle.request_data.specs.Authority.{authority_of};

use mock_request::snapshot::Snapshot;
use std::alloc::{AllocError, Global};

/// The text of the first `host` header, empty where there is none.
pub(crate) fn authority(alloc: Global, snapshot: &Snapshot) -> Result<String, AllocError>
    ensures { IfOk result (λ text. string_bytes text ≡ authority_of snapshot.now.headers) }
{
    for index in 0..snapshot.header_count() {
        if let Some((name, value)) = snapshot.header(index) {
            if name == "host" {
                return String::from_utf8_lossy(alloc, value);
            }
        }
    }
    Ok(String::new(alloc))
}
