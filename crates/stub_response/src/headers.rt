// Headers as `http` holds them.
ghost use Rattle.std.specs.Prelude.{◌≡◌, [], IfOk, OnOk};
ghost use Rattle.stub_response.specs.Headers.{headers_of, with_header};

use http_header::{HeaderMap, HeaderName, HeaderNameError, HeaderValue, HeaderValueError};
use mapping_model::field_name::FieldName;
use mapping_model::reply::ReplyHeader;
use plain_text::octets::Octets;
use std::alloc::{AllocError, Global};

// Room for more names than these is made as they come.
const RESERVED: usize = 128;

/// The headers of a reply. Values are moved, and not copied.
pub fn header_map(alloc: Global, headers: Vec<ReplyHeader>) -> Result<HeaderMap, AllocError>
    ensures { IfOk result (λ made. made ≡ headers_of headers.items) }
{
    let mut made = empty_headers(alloc, headers.len())?;
    for header in headers {
        let ReplyHeader { name, value } = header;
        push_header(alloc, &mut made, &name, value)?;
    }
    Ok(made)
}

/// No headers, with room for so many names.
pub(crate) fn empty_headers(alloc: Global, names: usize) -> Result<HeaderMap, AllocError>
    ensures { IfOk result (λ made. made ≡ []) }
{
    match HeaderMap::with_capacity(alloc, names.min(RESERVED)) {
        Ok(made) => Ok(made),
        Err(_full) => Err(AllocError),
    }
}

/// One more header, unless `http` can't hold it. A full map counts as no memory.
pub(crate) fn push_header(
    alloc: Global,
    headers: &mut HeaderMap,
    name: &FieldName,
    value: Octets,
) -> Result<(), AllocError>
    ensures { OnOk result (headers.new ≡ with_header headers.old (record { name = name.now; value = value })) }
{
    let name = match HeaderName::from_bytes(alloc, name.as_str().as_bytes()) {
        Ok(name) => name,
        Err(HeaderNameError::Invalid) => return Ok(()),
        Err(HeaderNameError::OutOfMemory) => return Err(AllocError),
    };
    let value = match HeaderValue::from_vec(value.into_vec()) {
        Ok(value) => value,
        Err(HeaderValueError::Invalid) => return Ok(()),
        Err(HeaderValueError::OutOfMemory) => return Err(AllocError),
    };
    let Ok(_) = headers.append(name, value) else {
        return Err(AllocError);
    };
    Ok(())
}
