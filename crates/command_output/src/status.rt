//! Exit statuses.

pub const SUCCESS: u8 = 0;

/// An error was reported, or output can't be written.
pub const FAILURE: u8 = 1;

pub const INVALID_ARGUMENTS: u8 = 2;
