// Why a text isn't taken as JSON, or as a JSON path.
ghost use Rattle.std.specs.Prelude.{◌≡◌};

use std::alloc::AllocError;

/// Why a text has no value.
#[derive(Clone, Copy, Debug, PartialEq, Eq)]
pub enum JsonError {
    /// The text isn't JSON, nests over 127 deep, or has a number that is too large for a float.
    NotJson,
    /// The text is JSON, but a number in it isn't written as a whole number, or doesn't fit 64 bits.
    NumberNotWhole,
    OutOfMemory,
}

impl From<AllocError> for JsonError {
    ghost use Rattle.json_bridge.specs.declared.error.JsonError.TheVariants.{OutOfMemory};

    ghost from_gives = { λ _ e. e ≡ OutOfMemory };

    fn from(_error: AllocError) -> JsonError {
        JsonError::OutOfMemory
    }
}

/// Why a text isn't taken as a JSON path.
#[derive(Clone, Copy, Debug, PartialEq, Eq)]
pub enum JsonPathError {
    /// The text spells no path.
    BadPath,
    OutOfMemory,
}

impl From<AllocError> for JsonPathError {
    ghost use Rattle.json_bridge.specs.declared.error.JsonPathError.TheVariants.{OutOfMemory};

    ghost from_gives = { λ _ e. e ≡ OutOfMemory };

    fn from(_error: AllocError) -> JsonPathError {
        JsonPathError::OutOfMemory
    }
}
