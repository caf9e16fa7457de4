// The compact text of a JSON value of whole numbers.
ghost use Rattle.std.specs.Prelude.{◌≡◌};
ghost use Rattle.json_reading.specs.Numbers.{IsWholeJson};

use plain_text::plain::Same;
use plain_text::text::Text;
use std::marker::Model;

/// The compact text of a value of which each number is whole and fits 64 bits, which contracts see as its bytes.
#[derive(Clone, Drop)]
pub struct JsonText {
    text: Text,
}

impl Model for JsonText {
    ghost use Rattle.std.specs.Prelude.{ℕ, List};
    ghost use Rattle.json_reading.specs.Numbers.{IsWholeJson};

    ghost Value = { List ℕ };

    ghost view = { λ t. t.text };

    ghost invariant = { λ t. IsWholeJson t.text };
}

impl JsonText {
    pub(crate) fn new(text: Text) -> JsonText
        requires { IsWholeJson text }
        ensures { result ≡ text }
    {
        JsonText { text }
    }

    pub fn as_str(&self) -> &str
        ensures text { result.now ≡ self.now }
        ensures whole { IsWholeJson self.now }
    {
        self.text.as_str()
    }

    /// Gives the text back without copying it.
    pub fn into_text(self) -> Text
        ensures { result ≡ self }
    {
        let JsonText { text } = self;
        text
    }
}

impl Same for JsonText {
    fn same(&self, other: &JsonText) -> bool {
        self.text.same(&other.text)
    }
}
