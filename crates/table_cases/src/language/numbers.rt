//! Numbers in cells.

/// The decimal number, if it has 64 bits.
pub fn number(text: &str) -> Option<u64> {
    text.parse::<u64>().ok()
}

/// The decimal number as an index.
pub fn index(text: &str) -> Option<usize> {
    usize::try_from(number(text)?).ok()
}
