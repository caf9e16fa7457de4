// The page of a server.
ghost use Rattle.std.specs.Prelude.{◌≡◌, ◌↔◌, IfOk, IfSome, IsNone, IsTrue};
ghost use Rattle.answering.specs.Page.{IsGivenPage, IsPageCall, page_headers, page_reply};

use crate::header::text_header;
use bytes::Bytes;
use mapping_model::reply::{Reply, ReplyHeader};
use mock_request::snapshot::Snapshot;
use plain_text::items::Items;
use std::alloc::{AllocError, Global};

/// The path below that of admin calls.
const PATH: &str = "/__admin/page";

/// Where its parts may come from (Content Security Policy Level 3): its own text, and this server; and that no page may
/// show it in a frame.
const POLICY: &str =
    "default-src 'none'; script-src 'unsafe-inline'; style-src 'unsafe-inline'; connect-src 'self'; img-src data:; frame-ancestors 'none'";

/// The page, if there is one and the request asks for it.
pub(crate) fn page_in<'p>(page: &'p Option<Bytes>, request: &Snapshot) -> Option<&'p Bytes>
    ensures some { IfSome result (λ bytes. IsGivenPage page.now request.now bytes.now) }
    ensures none { IsNone result → (bytes : _) → ¬ (IsGivenPage page.now request.now bytes) }
{
    match page {
        Some(bytes) => if is_page_call(request) {
            Some(bytes)
        } else {
            None
        },
        None => None,
    }
}

fn is_page_call(request: &Snapshot) -> bool
    ensures { IsTrue result ↔ IsPageCall request.now }
{
    request.method() == "GET" && request.path() == PATH
}

/// The reply with the page. It shares its bytes.
pub(crate) fn page_reply(alloc: Global, page: &Bytes) -> Result<Reply, AllocError>
    ensures { IfOk result (λ reply. reply ≡ page_reply page.now) }
{
    Ok(Reply {
        status: 200,
        headers: Items::from(page_headers(alloc)?),
        body: page.clone()?,
    })
}

fn page_headers(alloc: Global) -> Result<Vec<ReplyHeader>, AllocError>
    ensures { IfOk result (λ headers. headers.items ≡ page_headers) }
{
    let mut headers = Vec::new(alloc);
    headers.push(text_header(alloc, "content-type", "text/html; charset=utf-8")?)?;
    headers.push(text_header(alloc, "content-security-policy", POLICY)?)?;
    headers.push(text_header(alloc, "x-content-type-options", "nosniff")?)?;
    headers.push(text_header(alloc, "cache-control", "no-store")?)?;
    Ok(headers)
}
