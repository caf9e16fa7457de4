// The host and the port of an authority.
ghost use Rattle.std.specs.Prelude.{◌≡◌, if◌then◌else◌, Some, None};
ghost use Rattle.std.specs.Str.Parse.{digits_value};
ghost use Rattle.mock_request.specs.Authority.{is_port, host_of, port_of};

// The port of an authority that names none: HTTP's.
const DEFAULT_PORT: u16 = 80;

// The most digits of a port.
const PORT_DIGITS: usize = 5;

/// The host, and the port after the last colon or else the default one.
pub fn host_and_port(authority: &str) -> (&str, u16)
    ensures host { result.0.now ≡ host_of authority.now }
    ensures port { result.1 ≡ port_of authority.now }
{
    let Some((host, digits)) = authority.rsplit_once(':') else {
        return (authority, DEFAULT_PORT);
    };
    match port(digits) {
        Some(port) => (host, port),
        None => (authority, DEFAULT_PORT),
    }
}

// The number, where the text is a port.
fn port(digits: &str) -> Option<u16>
    ensures { result ≡ (if is_port digits.now then Some (digits_value 10 digits.now) else None) }
{
    // `parse` alone would take a sign and more leading zeros.
    if digits.len() > PORT_DIGITS || digits.starts_with('+') {
        return None;
    }
    digits.parse::<u16>().ok()
}
