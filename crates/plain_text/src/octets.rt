// A run of bytes that contracts see as a list.
ghost use Rattle.std.specs.Prelude.{◌≡◌, ◌↔◌, IsTrue};

use crate::plain::Same;
use std::alloc::AllocError;
use std::marker::Model;

/// Any bytes, which contracts see as a list.
#[derive(Debug, Drop)]
pub struct Octets {
    bytes: Vec<u8>,
}

impl Model for Octets {
    ghost use Rattle.std.specs.Prelude.{ℕ, List};

    ghost Value = { List ℕ };

    ghost view = { λ o. o.bytes.items };
}

impl Octets {
    pub fn as_slice(&self) -> &[u8]
        ensures { result.now ≡ self.now }
    {
        self.bytes.as_slice()
    }

    /// Gives the bytes back without copying them.
    pub fn into_vec(self) -> Vec<u8>
        ensures { result.items ≡ self }
    {
        let Octets { bytes } = self;
        bytes
    }

    pub fn same(&self, other: &Octets) -> bool
        ensures { IsTrue result ↔ (self.now ≡ other.now) }
    {
        self.as_slice() == other.as_slice()
    }
}

impl Clone for Octets {
    ghost use Rattle.std.specs.Prelude.{◌≡◌};

    ghost is_clone = { λ original copy. copy ≡ original };

    fn clone(&self) -> Result<Octets, AllocError> {
        Ok(Octets {
            bytes: self.bytes.clone()?,
        })
    }
}

impl Same for Octets {
    fn same(&self, other: &Octets) -> bool {
        Octets::same(self, other)
    }
}

/// Takes no memory.
impl From<Vec<u8>> for Octets {
    ghost use Rattle.std.specs.Prelude.{◌≡◌};

    ghost from_gives = { λ bytes result. result ≡ bytes.items };

    fn from(bytes: Vec<u8>) -> Octets {
        Octets { bytes }
    }
}
