// Which word is which literal.
ghost use Rattle.std.specs.Prelude.{◌≡◌, pos, option_map};
ghost use Rattle.template_words.specs.Literals.{text_literal, short_number, whole_number, truth_literal};
ghost use Rattle.template_words.specs.Views.{part_view};

use crate::marks::after_mark;
use crate::words::{enclosed, is_short_digits};

/// What is between two `"` or two `'`.
pub fn text_literal(text: &str) -> Option<&str>
    ensures { part_view result ≡ text_literal text.now }
{
    match enclosed(text, "\"", "\"") {
        Some(inner) => Some(inner),
        None => enclosed(text, "'", "'"),
    }
}

fn short_number(text: &str) -> Option<i64>
    ensures { result ≡ option_map pos (short_number text.now) }
{
    if is_short_digits(text) {
        text.parse().ok()
    } else {
        None
    }
}

/// A whole number of at most `NUMBER_DIGITS` digits.
pub fn whole_number(text: &str) -> Option<i64>
    ensures { result ≡ whole_number text.now }
{
    match after_mark(text, "-") {
        Some(digits) => Some(-short_number(digits)?),
        None => short_number(text),
    }
}

/// `true` or `false`.
pub fn truth_literal(text: &str) -> Option<bool>
    ensures { result ≡ truth_literal text.now }
{
    if text == "true" {
        Some(true)
    } else if text == "false" {
        Some(false)
    } else {
        None
    }
}
