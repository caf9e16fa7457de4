// What a word in a tag is, before it is read as a path.
ghost use Rattle.std.specs.Prelude.{◌≡◌, ◌<◌, length};
ghost use Rattle.template_words.specs.Marks.{offset_of};
ghost use Rattle.template_words.specs.Views.{part_view};
ghost use Rattle.template_words.specs.Words.{is_break, closed_at_end, enclosed, is_short_digits, is_foreign_helper};

use crate::marks::{after_mark, around_mark};
use crate::mode::is_blank;
use data_tree::digits::is_digits;

/// The most digits of a number in a tag, so that it fits into 64 bits.
pub const NUMBER_DIGITS: usize = 18;

/// White space or a parenthesis.
pub fn is_break(byte: u8) -> bool
    ensures { result ≡ is_break byte }
{
    is_blank(byte) || byte == b'(' || byte == b')'
}

/// The text before the first closing mark, which is at the end.
pub(crate) fn closed_at_end<'a>(text: &'a str, close: &str) -> Option<&'a str>
    requires { 0 < length close.now }
    ensures { part_view result ≡ closed_at_end close.now text.now (offset_of close.now text.now) }
{
    let (inner, rest) = around_mark(text, close)?;
    if rest.is_empty() { Some(inner) } else { None }
}

/// The text between an opening mark at the front and the first closing mark, which is at the end.
pub(crate) fn enclosed<'a>(text: &'a str, open_mark: &str, close: &str) -> Option<&'a str>
    requires { 0 < length close.now }
    ensures { part_view result ≡ enclosed open_mark.now close.now text.now }
{
    closed_at_end(after_mark(text, open_mark)?, close)
}

pub(crate) fn is_short_digits(text: &str) -> bool
    ensures { result ≡ is_short_digits text.now }
{
    0 < text.len() && text.len() <= NUMBER_DIGITS && is_digits(text)
}

/// A helper that only other implementations of Handlebars have.
pub fn is_foreign_helper(text: &str) -> bool
    ensures { result ≡ is_foreign_helper text.now }
{
    matches!(
        text,
        "now" | "randomValue" | "xPath" | "math" | "lookup" | "log"
    )
}
