// What the content of a tag says.
ghost use Rattle.std.specs.Prelude.{◌≡◌, ◌<◌, ◌^◌, ◌∷◌, drop, length, map, reverse, IfOk};
ghost use Rattle.template_tags.specs.Inner.Pieces.{lone_piece, value_pieces, print_parts};
ghost use Rattle.template_tags.specs.Inner.Scan.{item_view};
ghost use Rattle.template_tags.specs.Inner.Views.{read_view, piece_view, pieces_view, parts_view, said_view};
ghost use Rattle.template_tags.specs.Items.{word};
ghost use Rattle.template_tags.specs.Said.{has_foreign_mark, tag_said};
ghost use Rattle.template_tags.specs.Inner.TagReads.{print_read, print_said, is_marked, word_said, tag_read};
ghost use Rattle.template_tags.specs.Inner.TagReads.{items_said, space_error};
ghost use Rattle.template_tags.specs.Tags.{tag_view};
ghost use Rattle.template_words.specs.Reading.{Gives};

use crate::blocks::{closing_said, else_said, match_error, opening_said};
use crate::calls::{beside, call_read, error_if};
use crate::expression::{Datum, Expression};
use crate::items::{Item, items_of, lacks_space};
use crate::level::{Block, Level};
use crate::nest::{Parts, Piece, tag_parts};
use crate::word::{lone_value, read_value};
use plain_text::text::Text;
use std::alloc::{AllocError, Global};
use template_words::error::{ReadError, TagError};
use template_words::marks::after_mark;

/// How a tag that is no comment is opened.
#[derive(Clone, Copy, Debug)]
pub enum Opening {
    /// `{{`
    Double,
    /// `{{{`
    Triple,
}

/// What a tag says. Contracts see `tag_view` of it.
#[derive(Debug, Drop)]
pub enum Tag {
    /// The text of a value.
    Print(Expression),
    /// Opens a block that is written where the test holds, or, by `unless`, where it doesn't.
    If {
        unless: bool,
        test: Expression,
    },
    /// Opens a loop over the items of a value, which `parameter` names.
    Each {
        over: Datum,
        parameter: Option<Text>,
    },
    /// Begins the else part of the innermost open block.
    Else,
    /// Closes the innermost open block.
    Close,
}

// The value of the one piece that a tag has.
fn lone_piece(
    alloc: Global,
    levels: &[Level],
    matched: bool,
    piece: Piece<'_>,
) -> Result<Result<Expression, TagError>, AllocError>
    requires { length levels.now < 2 ^ 32 }
    ensures { IfOk result
        (λ read. read_view read ≡ lone_piece (reverse levels.now) matched (piece_view piece.entry)) }
{
    match piece {
        Piece::Word(word) if matched => lone_value(alloc, levels, word),
        Piece::Word(word) => read_value(alloc, levels, word),
        Piece::Group {
            value: _,
            height: _,
        } => Ok(Err(TagError::UnsupportedTag)),
    }
}

// The value that a tag prints.
fn value_said(
    alloc: Global,
    levels: &[Level],
    matched: bool,
    mut pieces: Vec<Piece<'_>>,
) -> Result<Result<Expression, TagError>, AllocError>
    requires { length levels.now < 2 ^ 32 }
    ensures { IfOk result
        (λ read. read_view read ≡ value_pieces (reverse levels.now) matched (pieces_view pieces.entry.items)) }
{
    if pieces.len() != 1 {
        return if !pieces.is_empty() {
            call_read(alloc, levels, pieces)
        } else if matched {
            Ok(Err(TagError::UnsupportedTag))
        } else {
            Ok(Err(TagError::BadPath))
        };
    }
    match pieces.pop() {
        Some(piece) => lone_piece(alloc, levels, matched, piece),
        None => unreachable!(),
    }
}

fn print_read(read: Result<Expression, TagError>) -> Result<Tag, TagError>
    ensures { said_view result ≡ print_read (read_view read) }
{
    match read {
        Ok(value) => Ok(Tag::Print(value)),
        Err(error) => Err(error),
    }
}

#[tactic(auto, using(crate::proofs::Besides::read_beside))]
fn piece_said(
    alloc: Global,
    levels: &[Level],
    parts: Parts<'_>,
) -> Result<Result<Tag, TagError>, AllocError>
    requires { length levels.now < 2 ^ 32 }
    ensures { IfOk result (λ said. said_view said ≡ print_parts (reverse levels.now) (parts_view parts.entry)) }
{
    let Parts { pieces, matched } = parts;
    let value = value_said(alloc, levels, matched, pieces)?;
    Ok(print_read(beside(match_error(matched), value)))
}

// What a tag says that prints.
#[tactic(auto, using(crate::proofs::Nests::print_parts_are))]
fn print_said(
    alloc: Global,
    levels: &[Level],
    items: &[Item<'_>],
) -> Result<Result<Tag, TagError>, AllocError>
    requires { length levels.now < 2 ^ 32 }
    ensures { IfOk result
        (λ said. said_view said ≡ print_said (reverse levels.now) (map item_view items.now)) }
{
    piece_said(alloc, levels, tag_parts(alloc, levels, items)?)
}

// Whether the text begins with a byte that marks a tag which templates don't have.
fn has_foreign_mark(text: &[u8]) -> bool
    ensures { result ≡ has_foreign_mark text.now }
{
    match text {
        [byte, ..] => b">&^*~{".contains(byte),
        [] => false,
    }
}

// Whether the text begins with such a byte, or with `#` and no block's name.
fn is_marked(text: &str) -> bool
    ensures { result ≡ is_marked text.now }
{
    if has_foreign_mark(text.as_bytes()) {
        return true;
    }
    matches!(after_mark(text, "#"), Some(name) if Block::from_name(name).is_none())
}

// What a tag says that begins with that word, which is the first of the items.
fn word_said(
    alloc: Global,
    opening: Opening,
    levels: &[Level],
    text: &str,
    items: &[Item<'_>],
) -> Result<Result<Tag, TagError>, AllocError>
    requires levels { length levels.now < 2 ^ 32 }
    requires first { map item_view items.now ≡ word text.now ∷ map item_view (drop 1 items.now) }
    ensures { IfOk result (λ said.
        said_view said ≡ word_said opening (reverse levels.now) text.now (map item_view (drop 1 items.now))) }
{
    let rest = match items {
        [_, rest @ ..] => rest,
        [] => unreachable!(),
    };
    if let Opening::Triple = opening {
        return print_said(alloc, levels, items);
    }
    if let Some(name) = after_mark(text, "#") {
        opening_said(alloc, levels, Block::from_name(name), rest)
    } else if let Some(name) = after_mark(text, "/") {
        closing_said(alloc, levels, name, rest)
    } else if text == "else" {
        else_said(alloc, levels, rest)
    } else {
        print_said(alloc, levels, items)
    }
}

fn items_said(
    alloc: Global,
    opening: Opening,
    levels: &[Level],
    items: &[Item<'_>],
) -> Result<Result<Tag, TagError>, AllocError>
    requires { length levels.now < 2 ^ 32 }
    ensures { IfOk result
        (λ said. said_view said ≡ items_said opening (reverse levels.now) (map item_view items.now)) }
{
    let [first, ..] = items else {
        return Ok(Err(TagError::UnsupportedTag));
    };
    match first.text() {
        None => print_said(alloc, levels, items),
        Some(text) if is_marked(text) => Ok(Err(TagError::UnsupportedTag)),
        Some(text) => word_said(alloc, opening, levels, text, items),
    }
}

fn space_error(content: &str) -> Option<TagError>
    ensures { result ≡ space_error content.now }
{
    error_if(TagError::BadPath, lacks_space(content.as_bytes()))
}

// What the content of a tag says, read part by part.
#[tactic(auto, unfolding(crate::specs::Inner::TagReads::tag_read), using(crate::proofs::Besides::said_beside))]
fn tag_read(
    alloc: Global,
    opening: Opening,
    content: &str,
    levels: &[Level],
) -> Result<Result<Tag, TagError>, AllocError>
    requires content { length content.now < 2 ^ 31 }
    requires levels { length levels.now < 2 ^ 32 }
    ensures { IfOk result (λ said. said_view said ≡ tag_read opening content.now (reverse levels.now)) }
{
    let items = items_of(alloc, content)?;
    let said = items_said(alloc, opening, levels, items.as_slice())?;
    Ok(beside(space_error(content), said))
}

/// What the content of a tag (between its marks; no comment) says where these blocks are open, the innermost last.
#[tactic(auto, using(crate::proofs::Reported::tag_is))]
pub fn read_tag(
    alloc: Global,
    opening: Opening,
    content: &str,
    levels: &[Level],
) -> Result<Tag, ReadError>
    requires content { length content.now < 2 ^ 31 }
    requires levels { length levels.now < 2 ^ 32 }
    ensures { Gives tag_view result (tag_said opening content.now (reverse levels.now)) }
{
    match tag_read(alloc, opening, content, levels)? {
        Ok(tag) => Ok(tag),
        Err(error) => Err(ReadError::Tag(error)),
    }
}
