// What a tag's parentheses group, read in one pass over the items of the tag from the last to the first. Groups nest as
// deep as a text has parentheses, so nothing here goes down them by recursion.
ghost use Rattle.std.specs.Prelude.{◌≡◌, ◌<◌, ◌^◌, [], ◌∷◌, ◌++◌, Some, length, map, option_map, reverse, IfOk};
ghost use Rattle.template_tags.specs.Inner.Pieces.{pieces_of, tag_parts, word_pieces, piece_height, greatest};
ghost use Rattle.template_tags.specs.Inner.Pieces.{grouped_pieces, piece_before};
ghost use Rattle.template_tags.specs.Inner.Scan.{item_view};
ghost use Rattle.template_tags.specs.Inner.Views.{piece_view, pieces_view, stack_view, grouped_view, parts_view};
ghost use Rattle.template_tags.specs.Terms.{terms_of};

use crate::calls::{call_read, limited};
use crate::expression::{CALL_LIMIT, Expression};
use crate::items::Item;
use crate::level::Level;
use crate::word_text::WordText;
use std::alloc::{AllocError, Global};
use template_words::error::TagError;

/// A word, or what a group was read as.
#[derive(Debug, Drop)]
pub enum Piece<'a> {
    Word(WordText<'a>),
    Group {
        value: Result<Expression, TagError>,
        /// How deep groups nest, this one counted; more than `CALL_LIMIT` are `CALL_LIMIT + 1`.
        height: usize,
    },
}

impl Piece<'_> {
    fn height(&self) -> usize
        ensures { result ≡ piece_height (piece_view self.now) }
    {
        match self {
            Piece::Word(_) => 0,
            Piece::Group { value: _, height } => *height,
        }
    }
}

/// The pieces of a tag. The first piece is the last element.
#[derive(Debug, Drop)]
pub struct Parts<'a> {
    pub pieces: Vec<Piece<'a>>,
    /// Whether each parenthesis has its other one. Where not, the pieces are the words of the tag.
    pub matched: bool,
}

/// What some items of a tag, from one of them to the last, group. In each list the first piece is the last element.
#[derive(Debug, Drop)]
pub struct Stack<'a> {
    /// Up to the first `)` whose `(` is before these items.
    pub pieces: Vec<Piece<'a>>,
    /// After it, up to the next such `)`, and so on. The first list is the last element.
    pub later: Vec<Vec<Piece<'a>>>,
}

fn greatest_height(pieces: &[Piece<'_>]) -> usize
    ensures { result ≡ greatest (map piece_view (reverse pieces.now)) }
{
    let mut greatest = 0;
    let mut left = pieces;
    while let [after @ .., piece] = left {
        greatest = greatest.max(piece.height());
        left = after;
    }
    greatest
}

fn group_piece<'a>(
    alloc: Global,
    levels: &[Level],
    pieces: Vec<Piece<'a>>,
) -> Result<Piece<'a>, AllocError>
    requires { length levels.now < 2 ^ 32 }
    ensures { IfOk result (λ piece.
        piece_view piece ≡ grouped_pieces (reverse levels.now) (pieces_view pieces.entry.items)) }
{
    let height = greatest_height(pieces.as_slice()).min(CALL_LIMIT) + 1;
    let value = limited(height, call_read(alloc, levels, pieces)?);
    Ok(Piece::Group { value, height })
}

// The stack, and that item before it. There is none where a `(` has no `)`.
fn item_before<'a>(
    alloc: Global,
    levels: &[Level],
    item: Item<'a>,
    stack: Stack<'a>,
) -> Result<Option<Stack<'a>>, AllocError>
    requires { length levels.now < 2 ^ 32 }
    ensures { IfOk result (λ made. option_map stack_view made
        ≡ piece_before (reverse levels.now) (item_view item.entry) (Some (stack_view stack.entry))) }
{
    let Stack {
        mut pieces,
        mut later,
    } = stack;
    match item {
        Item::Word(word) => {
            pieces.push(Piece::Word(word))?;
            Ok(Some(Stack { pieces, later }))
        }
        Item::RightParenthesis => {
            later.push(pieces)?;
            Ok(Some(Stack {
                pieces: Vec::new(alloc),
                later,
            }))
        }
        Item::LeftParenthesis => {
            let group = group_piece(alloc, levels, pieces)?;
            match later.pop() {
                None => Ok(None),
                Some(mut outer) => {
                    outer.push(group)?;
                    Ok(Some(Stack {
                        pieces: outer,
                        later,
                    }))
                }
            }
        }
    }
}

// What the items group, where each parenthesis has its other one.
fn grouped<'a>(
    alloc: Global,
    levels: &[Level],
    items: &[Item<'a>],
) -> Result<Option<Vec<Piece<'a>>>, AllocError>
    requires { length levels.now < 2 ^ 32 }
    ensures { IfOk result (λ found. grouped_view found
        ≡ option_map (pieces_of (reverse levels.now)) (terms_of (map item_view items.now))) }
{
    let mut stack = Stack {
        pieces: Vec::new(alloc),
        later: Vec::new(alloc),
    };
    let mut left = items;
    while let [before @ .., item] = left {
        match item_before(alloc, levels, *item, stack)? {
            Some(next) => stack = next,
            None => return Ok(None),
        }
        left = before;
    }
    let Stack { pieces, later } = stack;
    if later.is_empty() {
        Ok(Some(pieces))
    } else {
        Ok(None)
    }
}

// The pieces, and that item before them, if it is a word.
fn with_word<'a>(mut pieces: Vec<Piece<'a>>, item: Item<'a>) -> Result<Vec<Piece<'a>>, AllocError>
    ensures { IfOk result (λ made. pieces_view made.items
        ≡ word_pieces (item_view item.entry ∷ []) ++ pieces_view pieces.entry.items) }
{
    if let Item::Word(word) = item {
        pieces.push(Piece::Word(word))?;
    }
    Ok(pieces)
}

// The words among the items.
fn words_of<'a>(alloc: Global, items: &[Item<'a>]) -> Result<Vec<Piece<'a>>, AllocError>
    ensures { IfOk result (λ pieces. pieces_view pieces.items ≡ word_pieces (map item_view items.now)) }
{
    let mut pieces = Vec::new(alloc);
    let mut left = items;
    while let [before @ .., item] = left {
        pieces = with_word(pieces, *item)?;
        left = before;
    }
    Ok(pieces)
}

/// What the items group; where their parentheses don't match, their words.
pub fn tag_parts<'a>(
    alloc: Global,
    levels: &[Level],
    items: &[Item<'a>],
) -> Result<Parts<'a>, AllocError>
    requires { length levels.now < 2 ^ 32 }
    ensures { IfOk result (λ parts. parts_view parts ≡ tag_parts (reverse levels.now) (map item_view items.now)) }
{
    match grouped(alloc, levels, items)? {
        Some(pieces) => Ok(Parts {
            pieces,
            matched: true,
        }),
        None => Ok(Parts {
            pieces: words_of(alloc, items)?,
            matched: false,
        }),
    }
}
