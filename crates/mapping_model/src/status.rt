// The status of a response.
ghost use Rattle.std.specs.Prelude.{◌≡◌, ◌↔◌, IfSome, IsSome, IsTrue};
ghost use Rattle.mapping_model.specs.Status.{IsStatus};

use std::marker::Model;

/// A status from 200 to 599, which contracts see as its number.
#[derive(Clone, Copy, Debug, PartialEq, Eq)]
pub struct Status {
    code: u16,
}

impl Model for Status {
    ghost use Rattle.std.specs.Prelude.{ℕ};
    ghost use Rattle.mapping_model.specs.Status.{IsStatus};

    ghost Value = { ℕ };

    ghost view = { λ s. s.code };

    ghost invariant = { λ s. IsStatus s.code };

    ghost inverse = { λ code. record { code = code } };
}

impl Status {
    pub fn new(code: u16) -> Option<Status>
        ensures some { IsSome result ↔ IsStatus code }
        ensures value { IfSome result (λ status. status ≡ code) }
    {
        if (200..=599).contains(&code) {
            Some(Status { code })
        } else {
            None
        }
    }

    /// The status 200.
    pub fn ok() -> Status
        ensures { result ≡ 200 }
    {
        Status { code: 200 }
    }

    pub fn code(self) -> u16
        ensures value { result ≡ self }
        ensures status { IsStatus result }
    {
        self.code
    }

    pub fn same(self, other: Status) -> bool
        ensures { IsTrue result ↔ (self ≡ other) }
    {
        self.code == other.code
    }
}
