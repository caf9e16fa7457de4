// Whether content has a transfer coding that isn't known.
ghost use Rattle.std.specs.Prelude.{◌↔◌, IsTrue};
ghost use Rattle.http_messages.specs.TransferCoding.{HasOtherCoding, IsChunked};

use http::{HeaderMap, HeaderValue, header};

/// Whether the content is in another coding than `chunked`, too.
pub fn has_other_coding(headers: &HeaderMap) -> bool
    ensures { IsTrue result ↔ HasOtherCoding headers.now }
{
    headers
        .get_all(header::TRANSFER_ENCODING)
        .iter()
        .any(|value| !is_chunked(value))
}

fn is_chunked(value: &HeaderValue) -> bool
    ensures { IsTrue result ↔ IsChunked value.now }
{
    value.as_bytes().eq_ignore_ascii_case(b"chunked")
}
