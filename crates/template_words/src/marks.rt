// Finding marks and closes in a text.
ghost use Rattle.std.specs.Prelude.{◌≡◌, ◌<◌, true, false, length, drop, slice_index, codes};
ghost use Rattle.std.specs.Prelude.{MatchOption, IfSome, IsCharBoundary};
ghost use Rattle.template_words.specs.Marks.{begins, offset_of, close_from, around};
ghost use Rattle.template_words.specs.Views.{parts_view};
ghost use Rattle.template_words.specs.declared.mode.Mode.TheVariants.{Start};

use crate::mode::Mode;

/// What follows the mark that the text begins with.
pub fn after_mark<'a>(text: &'a str, mark: &str) -> Option<&'a str>
    ensures { MatchOption result (begins mark.now text.now ≡ false)
        (λ x. (begins mark.now text.now ≡ true) × (x.now ≡ drop (length mark.now) text.now)) }
{
    text.strip_prefix(mark)
}

/// The byte offset of the first tag's mark.
pub fn mark_offset(text: &str) -> Option<usize>
    ensures value { result ≡ offset_of (codes "{{") text.now }
    ensures cut { IfSome result (λ i. IsCharBoundary text.now i) }
{
    text.find("{{")
}

/// The text before the first such mark, and after it.
pub fn around_mark<'a>(text: &'a str, mark: &str) -> Option<(&'a str, &'a str)>
    requires { 0 < length mark.now }
    ensures { parts_view result ≡ around mark.now text.now (offset_of mark.now text.now) }
{
    text.split_once(mark)
}

/// The byte offset of the first close that is outside of literals.
fn close_offset(text: &[u8], close: &[u8]) -> Option<usize>
    ensures { result ≡ close_from close.now Start text.now }
{
    // A loop, since each byte changes the mode.
    let mut mode = Mode::Start;
    let mut at = 0;
    let mut rest = text;
    while let [byte, after @ ..] = rest {
        if !mode.is_literal() && rest.starts_with(close) {
            return Some(at);
        }
        mode = mode.after(*byte);
        at += 1;
        rest = after;
    }
    None
}

/// The text before that close, and after it.
pub fn around_close<'a>(text: &'a str, close: &str) -> Option<(&'a str, &'a str)>
    requires some { 0 < length close.now }
    requires ascii { slice_index close.now 0 < 128 }
    ensures { parts_view result ≡ around close.now text.now (close_from close.now Start text.now) }
{
    let offset = close_offset(text.as_bytes(), close.as_bytes())?;
    let (content, rest) = text.split_at(offset);
    match after_mark(rest, close) {
        Some(rest) => Some((content, rest)),
        None => unreachable!(),
    }
}
