//! The headers that belong to a connection whatever the message says.
ghost use Rattle.std.specs.Prelude.{◌≡◌};
ghost use Rattle.mock_request.specs.ConnectionNames.{is_connection_name};

/// Whether a header of this name belongs to the connection of any message. The name is in lower case.
pub fn is_connection_name(name: &str) -> bool
    ensures { result ≡ is_connection_name name.now }
{
    name == "content-length"
        || name == "transfer-encoding"
        || name == "connection"
        || name == "keep-alive"
        || name == "proxy-connection"
        || name == "te"
        || name == "trailer"
        || name == "upgrade"
}
