// The values of headers as they are sent.
ghost use Rattle.std.specs.Prelude.{◌≡◌};
ghost use Rattle.stub_response.specs.HeaderText.{header_text, value_byte};

use plain_text::octets::Octets;

/// The text without control bytes other than tabs (RFC 9110, section 5.5): each becomes a space, in place.
pub(crate) fn header_text(mut text: Vec<u8>) -> Octets
    ensures { result ≡ header_text text.items }
{
    for i in 0..text.len() {
        text[i] = value_byte(text[i]);
    }
    Octets::from(text)
}

fn value_byte(byte: u8) -> u8
    ensures { result ≡ value_byte byte }
{
    if byte == b'\t' || (byte >= b' ' && byte != 0x7f) {
        byte
    } else {
        b' '
    }
}
