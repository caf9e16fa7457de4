// The headers of a message that belong to its connection alone.
ghost use Rattle.std.specs.Prelude.{◌≡◌};
ghost use Rattle.std.specs.Str.{str_eq_ignore_ascii_case};
ghost use Rattle.http_header.specs.HeaderMap.{pairs};
ghost use Rattle.mock_request.specs.Request.{headers_of};
ghost use Rattle.recorder.specs.Connection.{has_option, is_between_options, is_named_by_connection};
ghost use Rattle.recorder.specs.Connection.{is_naming, is_of_connection};

use http_header::HeaderMap;
use mock_request::connection_names::is_connection_name;
use mock_request::snapshot::Snapshot;

/// Whether a header of that name belongs to the connection of a request.
pub(crate) fn is_of_request_connection(request: &Snapshot, name: &str) -> bool
    ensures { result ≡ is_of_connection request.now.headers name.now }
{
    is_connection_name(name) || is_named_by_request(request, name)
}

/// Whether a header of that name belongs to the connection of a reply with these headers.
pub(crate) fn is_of_reply_connection(received: &HeaderMap, name: &str) -> bool
    ensures { result ≡ is_of_connection (headers_of (pairs received.now)) name.now }
{
    is_connection_name(name) || is_named_by_reply(received, name)
}

fn is_named_by_request(request: &Snapshot, name: &str) -> bool
    ensures { result ≡ is_named_by_connection request.now.headers name.now }
{
    for index in 0..request.header_count() {
        if let Some((field, value)) = request.header(index) {
            if is_naming(field, value, name) {
                return true;
            }
        }
    }
    false
}

fn is_named_by_reply(received: &HeaderMap, name: &str) -> bool
    ensures { result ≡ is_named_by_connection (headers_of (pairs received.now)) name.now }
{
    for (field, value) in received.iter() {
        if is_naming(field.as_str(), value.as_bytes(), name) {
            return true;
        }
    }
    false
}

fn is_naming(field: &str, value: &[u8], name: &str) -> bool
    ensures { result ≡ is_naming name.now (record { name = field.now; value = value.now }) }
{
    field == "connection" && has_option(value, name)
}

fn has_option(value: &[u8], name: &str) -> bool
    ensures { result ≡ has_option name.now value.now }
{
    value
        .split(|byte| is_between_options(*byte))
        .any(|option| is_option(option, name))
}

fn is_between_options(byte: u8) -> bool
    ensures { result ≡ is_between_options byte }
{
    byte == b',' || byte == b' ' || byte == b'\t'
}

fn is_option(option: &[u8], name: &str) -> bool
    ensures { result ≡ str_eq_ignore_ascii_case name.now option.now }
{
    name.as_bytes().eq_ignore_ascii_case(option)
}
