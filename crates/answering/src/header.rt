// Header lines of the server's own replies.
ghost use Rattle.std.specs.Prelude.{◌≡◌, ◌<◌, IfOk, IsTrue, length};
ghost use Rattle.std.specs.List.{list_all};
ghost use Rattle.http_header.specs.Token.{token_test};

use mapping_model::field_name::FieldName;
use mapping_model::reply::ReplyHeader;
use plain_text::octets::Octets;
use plain_text::text::Text;
use std::alloc::{AllocError, Global};

/// A header line. The name is a token (RFC 9110, section 5.6.2), as a test says that is computed where it is called.
pub(crate) fn header(alloc: Global, name: &str, value: Octets) -> Result<ReplyHeader, AllocError>
    requires some { 0 < length name.now }
    requires token { IsTrue (list_all token_test name.now) }
    ensures { IfOk result (λ header. header ≡ record { name = name.now; value = value }) }
{
    match FieldName::new(Text::from(String::from_str(alloc, name)?)) {
        Some(name) => Ok(ReplyHeader { name, value }),
        None => unreachable!(),
    }
}

/// The same, with the value of this text.
pub(crate) fn text_header(alloc: Global, name: &str, value: &str) -> Result<ReplyHeader, AllocError>
    requires some { 0 < length name.now }
    requires token { IsTrue (list_all token_test name.now) }
    ensures { IfOk result (λ header. header ≡ record { name = name.now; value = value.now }) }
{
    let value = Octets::from(Vec::from_slice(alloc, value.as_bytes())?);
    header(alloc, name, value)
}
