// From a document to a request matcher.
ghost use Rattle.std.specs.Prelude.{IfOk, IfErr};
ghost use Rattle.json_reading.specs.declared.reading.Reading.TheVariants.{Read};
ghost use Rattle.mapping_json.specs.RequestRefusal.{Spells, IsRefused};
ghost use Rattle.request_match.specs.Refusal.{CanBeBuilt};

use crate::request_error::RequestDocumentError;
use json_reading::document::document_of;
use json_reading::kind::Kind;
use json_reading::numbers::taken;
use json_reading::reading::Reading;
use request_json::request_reading::request_of;
use request_match::request_matcher::RequestMatcher;
use std::alloc::Global;

/// The request matcher that a document is.
pub fn read_request(alloc: Global, text: &[u8]) -> Result<RequestMatcher, RequestDocumentError>
    ensures ok { IfOk result (λ matcher. Spells text.now (Read matcher)) }
    ensures usable { IfOk result CanBeBuilt }
    ensures refused { IfErr result (IsRefused text.now) }
{
    let Some(value) = document_of(alloc, text)? else {
        return Err(RequestDocumentError::Document(Kind::NotJson));
    };
    match taken(&value, request_of(alloc, &value)?) {
        Reading::Read(request) => Ok(RequestMatcher::build(alloc, &request)?),
        Reading::Wrong(kind) => Err(RequestDocumentError::Document(kind)),
    }
}
