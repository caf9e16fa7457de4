//! The limits of well-formed code.

/// The most instructions of a program.
pub const MAX_INSTRUCTIONS: usize = 4096;

/// The most slots on the stack.
pub const MAX_SLOTS: usize = 32;

/// The most open loops.
pub const MAX_LOOPS: usize = 4;

/// The largest coefficient of a bound or of a budget, 2^63 - 1.
pub const MAX_COEFFICIENT: u64 = 9_223_372_036_854_775_807;

/// The length of an escaped text, at most, as a multiple of the text's.
pub const MAX_ESCAPE_GROWTH: u64 = 6;
