// A segment of a path.
ghost use Rattle.std.specs.Prelude.{◌≡◌, IfOk};
ghost use Rattle.admin_routes.specs.Segment.{decoded};

use percent_encoding::percent_decode;
use plain_text::text::Text;
use std::alloc::{AllocError, Global};
use std::marker::Model;

/// A segment of a path, as it was sent: contracts see its text.
#[derive(Drop)]
pub struct Segment<'p> {
    text: &'p str,
}

impl<'p> Model for Segment<'p> {
    ghost use Rattle.std.specs.Prelude.{ℕ, List};

    ghost Value = { List ℕ };

    ghost view = { λ s. s.text.now };
}

impl<'p> Segment<'p> {
    pub(crate) fn new(text: &'p str) -> Segment<'p>
        ensures { result ≡ text.now }
    {
        Segment { text }
    }

    pub fn as_str(&self) -> &'p str
        ensures { result.now ≡ self.now }
    {
        self.text
    }

    /// Its text with each escape (`%2F`) replaced by its byte, and read as UTF-8, with U+FFFD for what is not.
    pub fn decoded(&self, alloc: Global) -> Result<Text, AllocError>
        ensures { IfOk result (λ text. text ≡ decoded self.now) }
    {
        let mut bytes = Vec::new(alloc);
        percent_decode(self.text.as_bytes()).append_to(&mut bytes)?;
        Ok(Text::from(String::from_utf8_lossy(alloc, bytes.as_slice())?))
    }
}
