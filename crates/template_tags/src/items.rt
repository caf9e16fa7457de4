// The words and the parentheses of a tag.
ghost use Rattle.std.specs.Prelude.{◌≡◌, ◌<◌, ◌≤◌, ◌^◌, [], ◌++◌, false, length, map, IfOk, IfSome};
ghost use Rattle.template_tags.specs.Items.{is_start, touches, lacks_space, break_before, word_before, items_of};
ghost use Rattle.template_tags.specs.Inner.Scan.{item_view, text_of, break_at, around_break, around_view};
ghost use Rattle.template_words.specs.Views.{part_view};
ghost use Rattle.template_words.specs.declared.mode.Mode.TheVariants.{Start};

use crate::word_text::WordText;
use std::alloc::{AllocError, Global};
use template_words::mode::{Mode, mode_of_byte};
use template_words::words::is_break;

/// A word or a parenthesis.
#[derive(Clone, Copy, Debug)]
pub enum Item<'a> {
    Word(WordText<'a>),
    LeftParenthesis,
    RightParenthesis,
}

impl<'a> Item<'a> {
    /// The text of a word.
    pub fn text(self) -> Option<&'a str>
        ensures { part_view result ≡ text_of (item_view self.entry) }
    {
        match self {
            Item::Word(word) => Some(word.text),
            Item::LeftParenthesis | Item::RightParenthesis => None,
        }
    }
}

fn is_start(mode: Mode) -> bool
    ensures { result ≡ is_start mode }
{
    matches!(mode, Mode::Start)
}

/// Whether the byte is a `(` after a word or a `)`, or begins a word after a `)`.
fn touches(mode: Mode, after_close: bool, byte: u8) -> bool
    ensures { result ≡ touches mode after_close byte }
{
    mode.is_outside() && ((byte == b'(' && !is_start(mode)) || (after_close && !is_break(byte)))
}

/// Whether white space is missing between two words, where a parenthesis groups some.
pub fn lacks_space(content: &[u8]) -> bool
    ensures { result ≡ lacks_space Start false content.now }
{
    // A loop, since each byte changes the mode.
    let mut mode = Mode::Start;
    let mut after_close = false;
    let mut rest = content;
    while let [byte, after @ ..] = rest {
        if touches(mode, after_close, *byte) {
            return true;
        }
        after_close = mode.is_outside() && *byte == b')';
        mode = mode.after(*byte);
        rest = after;
    }
    false
}

/// The byte offset of the first break outside of literals and brackets.
fn break_offset(mode: Mode, text: &[u8]) -> Option<usize>
    ensures { result ≡ break_at mode text.now }
{
    // A loop, since each byte changes the mode.
    let mut mode = mode;
    let mut at = 0;
    let mut rest = text;
    while let [byte, after @ ..] = rest {
        if mode.is_outside() && is_break(*byte) {
            return Some(at);
        }
        mode = mode.after(*byte);
        at += 1;
        rest = after;
    }
    None
}

// The text before that break, the break, and the text after it.
fn around_break<'a>(mode: Mode, text: &'a str) -> Option<(&'a str, u8, &'a str)>
    ensures value { around_view result ≡ around_break mode text.now }
    ensures word { IfSome result (λ x. length x.0.now ≤ length text.now) }
    ensures rest { IfSome result (λ x. length x.2.now < length text.now) }
{
    let offset = break_offset(mode, text.as_bytes())?;
    let (front, back) = text.split_at(offset);
    let byte = back.as_bytes()[0];
    let (_, after) = back.split_at(1);
    Some((front, byte, after))
}

// The items, and that word after them, unless it is empty.
fn with_word<'a>(mut items: Vec<Item<'a>>, text: &'a str) -> Result<Vec<Item<'a>>, AllocError>
    requires { length text.now < 2 ^ 31 }
    ensures { IfOk result (λ made.
        map item_view made.items ≡ map item_view items.entry.items ++ word_before text.now []) }
{
    if !text.is_empty() {
        items.push(Item::Word(WordText { text }))?;
    }
    Ok(items)
}

// The items, and that break after them, unless it is white space.
fn with_break<'a>(mut items: Vec<Item<'a>>, byte: u8) -> Result<Vec<Item<'a>>, AllocError>
    ensures { IfOk result (λ made.
        map item_view made.items ≡ map item_view items.entry.items ++ break_before byte []) }
{
    if byte == b'(' {
        items.push(Item::LeftParenthesis)?;
    } else if byte == b')' {
        items.push(Item::RightParenthesis)?;
    }
    Ok(items)
}

/// The items of the content of a tag, in order.
pub fn items_of<'a>(alloc: Global, content: &'a str) -> Result<Vec<Item<'a>>, AllocError>
    requires { length content.now < 2 ^ 31 }
    ensures { IfOk result (λ items. map item_view items.items ≡ items_of content.now) }
{
    let mut items = Vec::new(alloc);
    let mut mode = Mode::Start;
    let mut rest = content;
    while let Some((text, byte, after)) = around_break(mode, rest) {
        items = with_break(with_word(items, text)?, byte)?;
        mode = mode_of_byte(byte);
        rest = after;
    }
    with_word(items, rest)
}
