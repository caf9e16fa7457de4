// Texts that are compared by their hashes first. Thousands of matchers are tried in turn, most of them for another URL:
// a hash is in the matcher itself, and the bytes of its text are elsewhere.
ghost use Rattle.std.specs.Prelude.{◌≡◌, ◌↔◌, IfOk, IsTrue};
ghost use Rattle.request_match.specs.Parts.Key.{hash_of};

use plain_text::text::Text;
use std::alloc::AllocError;
use std::hash::{FoldHasher, Hasher};
use std::marker::Model;

/// A text that is kept, with its hash. Contracts see the text.
#[derive(Drop)]
pub(crate) struct HashedText {
    text: Text,
    hash: u64,
}

impl Model for HashedText {
    ghost use Rattle.std.specs.Prelude.{◌≡◌, ℕ, List};
    ghost use Rattle.request_match.specs.Parts.Key.{hash_of};

    ghost Value = { List ℕ };

    ghost view = { λ t. t.text };

    ghost invariant = { λ t. t.hash ≡ hash_of t.text };
}

impl HashedText {
    pub(crate) fn new(text: &Text) -> Result<HashedText, AllocError>
        ensures { IfOk result (λ hashed. hashed ≡ text.now) }
    {
        Ok(HashedText {
            text: text.clone()?,
            hash: hash(text.as_str()),
        })
    }

    pub(crate) fn as_str(&self) -> &str
        ensures { result.now ≡ self.now }
    {
        self.text.as_str()
    }

    pub(crate) fn hash(&self) -> u64
        ensures { result ≡ hash_of self.now }
    {
        self.hash
    }
}

/// A text with its hash. Contracts see the text.
#[derive(Drop)]
pub(crate) struct HashedStr<'a> {
    text: &'a str,
    hash: u64,
}

impl<'a> Model for HashedStr<'a> {
    ghost use Rattle.std.specs.Prelude.{◌≡◌, ℕ, List};
    ghost use Rattle.request_match.specs.Parts.Key.{hash_of};

    ghost Value = { List ℕ };

    ghost view = { λ t. t.text.now };

    ghost invariant = { λ t. t.hash ≡ hash_of t.text.now };
}

impl<'a> HashedStr<'a> {
    pub(crate) fn new(text: &'a str) -> HashedStr<'a>
        ensures { result ≡ text.now }
    {
        HashedStr {
            text,
            hash: hash(text),
        }
    }

    pub(crate) fn as_str(&self) -> &'a str
        ensures { result.now ≡ self.now }
    {
        self.text
    }

    pub(crate) fn hash(&self) -> u64
        ensures { result ≡ hash_of self.now }
    {
        self.hash
    }

    pub(crate) fn equals(&self, other: &HashedText) -> bool
        ensures { IsTrue result ↔ (self.now ≡ other.now) }
    {
        self.hash == other.hash && self.text == other.as_str()
    }
}

fn hash(text: &str) -> u64
    ensures { result ≡ hash_of text.now }
{
    let mut hasher = FoldHasher::default();
    hasher.write(text.as_bytes());
    hasher.finish()
}
