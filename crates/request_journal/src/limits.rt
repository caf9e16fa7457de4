// What a book may hold.

/// The most mappings that are live at a time.
pub const LIVE_LIMIT: usize = 10_000;

/// The greatest number that an event has: 2^63.
pub const NUMBER_LIMIT: u64 = 9_223_372_036_854_775_808;
