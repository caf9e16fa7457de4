//! The words of a cell, with a blank between two.

/// The first word, and what follows it.
pub fn parts(text: &str) -> (&str, &str) {
    text.split_once(' ').unwrap_or((text, ""))
}

/// The number that a text is, 0 where it is none.
pub fn number(text: &str) -> u64 {
    text.parse::<u64>().unwrap_or(0)
}

/// What follows the `=` of the word with this name.
pub fn value<'t>(words: &'t str, name: &str) -> Option<&'t str> {
    for word in words.split(' ') {
        if let Some((found, value)) = word.split_once('=') {
            if found == name {
                return Some(value);
            }
        }
    }
    None
}
