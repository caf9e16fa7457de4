// A text of a value: a short one lies within the value.
ghost use Rattle.std.specs.Prelude.{◌≡◌, ◌≤◌, length, IfOk, string_bytes};

use std::alloc::{AllocError, Global};
use std::cmp::Ordering;
use std::marker::Model;
use std::str;

// The most bytes of a text that takes no memory of its own. With its length and the tag of the enum it takes as many
// bytes as a tag and a `String`.
const SHORT_BYTES: usize = 30;

/// A text that contracts see as its bytes. One of up to 30 bytes, as most names and values have, lies within it.
#[derive(Debug)]
pub struct CompactText {
    held: Held,
}

#[derive(Debug, Drop)]
enum Held {
    Short(ShortText),
    Long(String),
}

impl Model for CompactText {
    ghost use Rattle.std.specs.Prelude.{List, ℕ};
    ghost use Rattle.data_tree.specs.Inner.Compact.{held_bytes};

    ghost Value = { List ℕ };

    ghost view = { λ t. held_bytes t.held };
}

impl CompactText {
    ghost use Rattle.std.specs.Prelude.{string_bytes};

    /// A copy of a text.
    pub fn from_str(alloc: Global, text: &str) -> Result<CompactText, AllocError>
        ensures { IfOk result (λ made. made ≡ text.now) }
    {
        let held = if text.len() <= SHORT_BYTES {
            Held::Short(ShortText::new(text))
        } else {
            Held::Long(String::from_str(alloc, text)?)
        };
        Ok(CompactText { held })
    }

    /// Takes a text over, without copying it.
    pub fn new(text: String) -> CompactText
        ensures { result ≡ string_bytes text }
    {
        CompactText {
            held: Held::Long(text),
        }
    }

    /// The text as a `String`: a long one is given back, without copying it.
    pub fn into_string(self, alloc: Global) -> Result<String, AllocError>
        ensures { IfOk result (λ text. string_bytes text ≡ self) }
    {
        let CompactText { held } = self;
        match held {
            Held::Short(text) => String::from_str(alloc, text.as_str()),
            Held::Long(text) => Ok(text),
        }
    }

    /// The text.
    pub fn as_str(&self) -> &str
        ensures { result.now ≡ self.now }
    {
        match &self.held {
            Held::Short(text) => text.as_str(),
            Held::Long(text) => text.as_str(),
        }
    }
}

// Written out, so that a caller's proof sees one call and not the drop of either form.
impl Drop for CompactText {
    fn drop(self) {
        let CompactText { held: _held } = self;
    }
}

impl PartialEq for CompactText {
    ghost use Rattle.std.specs.Prelude.{nat_eq};
    ghost use Rattle.std.specs.Cmp.{partial_equiv_from_equiv};
    ghost use Rattle.std.specs.Cmp.Lexicographic.{pointwise, nat_list_eq_equiv};

    ghost eq = { λ s t. pointwise nat_eq s t };

    ghost laws = { partial_equiv_from_equiv nat_list_eq_equiv };

    fn eq(&self, other: &Self) -> bool {
        self.as_str() == other.as_str()
    }
}

impl Eq for CompactText {
    ghost use Rattle.std.specs.Cmp.Lexicographic.{nat_list_eq_equiv};

    ghost laws = { nat_list_eq_equiv };
}

impl PartialOrd for CompactText {
    ghost use Rattle.std.specs.Prelude.{Some};
    ghost use Rattle.std.specs.Ordering.{nat_cmp};
    ghost use Rattle.std.specs.Cmp.Lexicographic.{slice_cmp, texts_po};

    ghost partial_cmp = { λ s t. Some (slice_cmp nat_cmp s t) };

    ghost laws = { texts_po };

    fn partial_cmp(&self, other: &Self) -> Option<Ordering> {
        Some(self.cmp(other))
    }
}

impl Ord for CompactText {
    ghost use Rattle.std.specs.Prelude.{refl};
    ghost use Rattle.std.specs.Ordering.{nat_cmp};
    ghost use Rattle.std.specs.Cmp.Lexicographic.{slice_cmp, nat_list_cmp_total, texts_ties};

    ghost cmp = { slice_cmp nat_cmp };

    ghost total = { nat_list_cmp_total };

    ghost matches_partial_cmp = { λ s t. refl };

    ghost matches_eq = { texts_ties };

    fn cmp(&self, other: &Self) -> Ordering {
        self.as_str().cmp(other.as_str())
    }
}

/// At most 30 bytes of UTF-8.
#[derive(Debug, Drop)]
struct ShortText {
    len: u8,
    bytes: [u8; SHORT_BYTES],
}

impl Model for ShortText {
    ghost use Rattle.std.specs.Prelude.{◌≡◌, ◌≤◌, length, List, ℕ, take, IsUtf8};

    ghost Value = { List ℕ };

    ghost view = { λ t. take t.len t.bytes };

    ghost invariant = { λ t. (t.len ≤ 30) × IsUtf8 (take t.len t.bytes) };
}

impl ShortText {
    fn new(text: &str) -> ShortText
        requires { length text.now ≤ 30 }
        ensures { result ≡ text.now }
    {
        let mut bytes = [0; SHORT_BYTES];
        bytes[..text.len()].copy_from_slice(text.as_bytes());
        ShortText {
            len: text.len() as u8,
            bytes,
        }
    }

    fn as_str(&self) -> &str
        ensures { result.now ≡ self.now }
    {
        // SAFETY: it is proved that the first bytes are UTF-8.
        unsafe { str::from_utf8_unchecked(&self.bytes[..self.len as usize]) }
    }
}
