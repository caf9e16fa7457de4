// The method, the URL and the body of a request in one block of memory.
ghost use Rattle.std.specs.Prelude.{◌≡◌, ◌++◌, IfOk};
ghost use Rattle.std.specs.Str.{IsUtf8};

use std::alloc::{AllocError, Global};
use std::marker::Model;
use std::str;

/// A request without its headers: method, URL and body, one after the other in a block of memory.
#[derive(Clone, Debug, Drop)]
pub(crate) struct BareRequest {
    bytes: Vec<u8>,
    url_start: u32,
    body_start: u32,
}

impl Model for BareRequest {
    ghost use Rattle.mock_request.specs.Inner.Bare.{Bare, bare_in, IsCut};

    ghost Value = { Bare };

    ghost view = { λ b. bare_in b.url_start b.body_start b.bytes.items };

    ghost invariant = { λ b. IsCut b.url_start b.body_start b.bytes.items };
}

impl BareRequest {
    /// A copy. A body that would begin after `u32::MAX` bytes is refused like one that there is no memory for.
    pub(crate) fn new(
        alloc: Global,
        method: &str,
        url: &str,
        body: &[u8],
    ) -> Result<BareRequest, AllocError>
        ensures { IfOk result (λ made. made ≡ record {
          method = method.now;
          url = url.now;
          body = body.now;
        }) }
    {
        let url_start = method.len();
        let body_start = url_start + url.len();
        let (Ok(url_start), Ok(body_start)) = (u32::try_from(url_start), u32::try_from(body_start))
        else {
            return Err(AllocError);
        };
        Ok(BareRequest {
            bytes: joined(alloc, method.as_bytes(), url.as_bytes(), body)?,
            url_start,
            body_start,
        })
    }

    pub(crate) fn method(&self) -> &str
        requires { IsUtf8 self.now.method }
        ensures { result.now ≡ self.now.method }
    {
        unsafe { str::from_utf8_unchecked(&self.bytes[..self.url_start as usize]) }
    }

    pub(crate) fn url(&self) -> &str
        requires { IsUtf8 self.now.url }
        ensures { result.now ≡ self.now.url }
    {
        unsafe {
            str::from_utf8_unchecked(&self.bytes[self.url_start as usize..self.body_start as usize])
        }
    }

    pub(crate) fn body(&self) -> &[u8]
        ensures { result.now ≡ self.now.body }
    {
        &self.bytes[self.body_start as usize..]
    }
}

// One after the other.
fn joined(alloc: Global, a: &[u8], b: &[u8], c: &[u8]) -> Result<Vec<u8>, AllocError>
    ensures { IfOk result (λ all. all.items ≡ a.now ++ (b.now ++ c.now)) }
{
    let total = a.len().saturating_add(b.len()).saturating_add(c.len());
    let mut all = Vec::with_capacity(alloc, total)?;
    all.extend_from_slice(a)?;
    all.extend_from_slice(b)?;
    all.extend_from_slice(c)?;
    Ok(all)
}
