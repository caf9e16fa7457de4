// Why there is no content.
ghost use Rattle.std.specs.Prelude.{◌≢◌};
ghost use Rattle.http_connections.specs.declared.request.content_error.ContentError.TheVariants.{TooLong};

use std::alloc::AllocError;

/// Why the content of a request wasn't gathered whole.
#[derive(Clone, Copy, Debug, PartialEq, Eq)]
pub enum ContentError {
    /// What came is no content: a chunk without its size or its end, say, or content that ends early.
    Malformed,
    /// It hadn't come whole when the connection had to leave.
    Late,
    TooLong,
    OutOfMemory,
}

impl From<AllocError> for ContentError {
    ghost use Rattle.std.specs.Prelude.{◌≡◌};
    ghost use Rattle.http_connections.specs.declared.request.content_error.ContentError.TheVariants.{OutOfMemory};

    ghost from_gives = { λ _ error. error ≡ OutOfMemory };

    fn from(_error: AllocError) -> ContentError {
        ContentError::OutOfMemory
    }
}

/// Why a body failed that came over a connection.
pub(crate) fn content_error(error: &hyper::Error) -> ContentError
    ensures { result ≢ TooLong }
{
    if error.is_out_of_memory() {
        ContentError::OutOfMemory
    } else {
        ContentError::Malformed
    }
}
