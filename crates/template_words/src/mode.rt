// Whether a byte of a tag is in a literal, in brackets or outside of both.
ghost use Rattle.std.specs.Prelude.{◌≡◌};
ghost use Rattle.template_words.specs.Modes.{is_blank, is_quote, mode_of_byte, mode_after, is_literal, is_outside};

/// What comes before a byte of a tag.
#[derive(Clone, Copy, Debug)]
pub enum Mode {
    /// The opening mark, white space or `(`: a quote opens a literal here.
    Start,
    /// Anything else outside of literals and brackets.
    Word,
    /// A `[`, with no `]` since.
    Bracket,
    /// This quote, which opened a literal that is still open.
    Literal(u8),
}

/// Space, tab, line feed and carriage return.
pub(crate) fn is_blank(byte: u8) -> bool
    ensures { result ≡ is_blank byte }
{
    byte == b' ' || byte == b'\t' || byte == b'\n' || byte == b'\r'
}

fn is_quote(byte: u8) -> bool
    ensures { result ≡ is_quote byte }
{
    byte == b'"' || byte == b'\''
}

/// The mode after a byte that opens or closes no literal and closes no bracket.
pub fn mode_of_byte(byte: u8) -> Mode
    ensures { result ≡ mode_of_byte byte }
{
    if byte == b'[' {
        Mode::Bracket
    } else if is_blank(byte) || byte == b'(' {
        Mode::Start
    } else {
        Mode::Word
    }
}

impl Mode {
    /// The mode after one more byte.
    pub fn after(self, byte: u8) -> Mode
        ensures { result ≡ mode_after self byte }
    {
        match self {
            Mode::Start => {
                if is_quote(byte) {
                    Mode::Literal(byte)
                } else {
                    mode_of_byte(byte)
                }
            }
            Mode::Word => mode_of_byte(byte),
            Mode::Bracket => {
                if byte == b']' {
                    Mode::Word
                } else {
                    Mode::Bracket
                }
            }
            Mode::Literal(quote) => {
                if byte == quote {
                    Mode::Word
                } else {
                    Mode::Literal(quote)
                }
            }
        }
    }

    pub(crate) fn is_literal(self) -> bool
        ensures { result ≡ is_literal self }
    {
        matches!(self, Mode::Literal(_))
    }

    /// Outside of literals and brackets.
    pub fn is_outside(self) -> bool
        ensures { result ≡ is_outside self }
    {
        matches!(self, Mode::Start | Mode::Word)
    }
}
