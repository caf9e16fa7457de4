//! The limits of what helpers give.

/// The length of the decimal of a number of 64 bits, at most, in bytes.
pub const MAX_NUMBER_LENGTH: u64 = 20;

/// The length of the word for a truth, at most, in bytes.
pub const MAX_TRUTH_LENGTH: u64 = 5;

/// The greatest count, 2^63 - 1: a number is one of 64 bits.
pub const MAX_COUNT: usize = 9_223_372_036_854_775_807;
