// The name of a header.
ghost use Rattle.std.specs.Prelude.{◌≡◌, ◌↔◌, IfSome, IsSome, IsTrue};
ghost use Rattle.http_header.specs.Token.{IsToken};

use http_header::is_token;
use plain_text::text::Text;
use std::alloc::AllocError;
use std::marker::Model;

/// The name of a header as it was written, which contracts see as its bytes: a token (RFC 9110, section 5.6.2).
#[derive(Drop)]
pub struct FieldName {
    name: Text,
}

impl Model for FieldName {
    ghost use Rattle.std.specs.Prelude.{List, ℕ};
    ghost use Rattle.http_header.specs.Token.{IsToken};

    ghost Value = { List ℕ };

    ghost view = { λ f. f.name };

    ghost invariant = { λ f. IsToken f.name };
}

impl FieldName {
    /// Takes no memory.
    pub fn new(name: Text) -> Option<FieldName>
        ensures some { IsSome result ↔ IsToken name }
        ensures value { IfSome result (λ field. field ≡ name) }
    {
        if is_token(name.as_str().as_bytes()) {
            Some(FieldName { name })
        } else {
            None
        }
    }

    pub fn as_str(&self) -> &str
        ensures value { result.now ≡ self.now }
        ensures token { IsToken result.now }
    {
        self.name.as_str()
    }

    /// Whether they are equal, byte by byte.
    pub fn same(&self, other: &FieldName) -> bool
        ensures { IsTrue result ↔ (self.now ≡ other.now) }
    {
        self.name.same(&other.name)
    }
}

impl Clone for FieldName {
    ghost use Rattle.std.specs.Prelude.{◌≡◌};

    ghost is_clone = { λ original copy. copy ≡ original };

    fn clone(&self) -> Result<FieldName, AllocError> {
        Ok(FieldName {
            name: self.name.clone()?,
        })
    }
}
