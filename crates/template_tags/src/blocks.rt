// What the tags of blocks say.
ghost use Rattle.std.specs.Prelude.{◌≡◌, ◌<◌, ◌^◌, not, is_some, length, map, reverse, IfOk};
ghost use Rattle.template_tags.specs.Blocks.{parameter_in, loop_items, is_word, are_last_names, are_names, has_names};
ghost use Rattle.template_tags.specs.Blocks.{has_parameters, is_reserved_name, is_innermost};
ghost use Rattle.template_tags.specs.Inner.BlockReads.{only_one, block_argument, block_error, loop_error, test_said};
ghost use Rattle.template_tags.specs.Inner.BlockReads.{data_only, if_read, each_read, loop_said, each_said};
ghost use Rattle.template_tags.specs.Inner.BlockReads.{opening_said, first_else, extra_error, else_said, all_errors};
ghost use Rattle.template_tags.specs.Inner.BlockReads.{closing_said};
ghost use Rattle.template_tags.specs.Inner.CallReads.{error_if};
ghost use Rattle.template_tags.specs.Inner.Pieces.{block_parts, extra_parts_error, all_parts_error};
ghost use Rattle.template_tags.specs.Inner.Scan.{item_view, item_is, with_items, loop_view};
ghost use Rattle.template_tags.specs.Inner.Views.{read_view, parts_view, said_view};
ghost use Rattle.template_words.specs.declared.error.TagError.TheVariants.{BadPath};
ghost use Rattle.template_words.specs.Views.{part_view};
ghost use Rattle.template_words.specs.Names.{is_name_after_bar, name_before_bar};
ghost use Rattle.template_words.specs.Paths.{is_name};

use crate::calls::{arguments, beside, error_if, errors_in};
use crate::expression::{Datum, Expression};
use crate::items::Item;
use crate::level::{BLOCK_LIMIT, Block, LOOP_LIMIT, Level, loops_open};
use crate::nest::{Parts, tag_parts};
use crate::tag::Tag;
use plain_text::text::Text;
use std::alloc::{AllocError, Global};
use template_words::error::{TagError, joined};
use template_words::names::{is_name_after_bar, name_before_bar, name_in_bars};
use template_words::paths::is_name;

fn parameter_in<'a>(first: Item<'a>, second: Item<'a>) -> Option<&'a str>
    ensures { part_view result ≡ parameter_in (item_view first.entry) (item_view second.entry) }
{
    if is_word("as", first) {
        name_in_bars(second.text()?)
    } else {
        None
    }
}

// The items of an `each` but for its name for items, which is at the end, and that name.
fn loop_items<'a, 'b>(items: &'b [Item<'a>]) -> (&'b [Item<'a>], Option<&'a str>)
    ensures { loop_view result ≡ loop_items (map item_view items.now) }
{
    match items {
        [before @ .., first, second] => match parameter_in(*first, *second) {
            Some(name) => (before, Some(name)),
            None => (items, None),
        },
        _ => (items, None),
    }
}

fn is_word(text: &str, item: Item<'_>) -> bool
    ensures { result ≡ is_word text.now (item_view item.entry) }
{
    matches!(item.text(), Some(word) if word == text)
}

fn is_name_item(item: Item<'_>) -> bool
    ensures { result ≡ item_is is_name (item_view item.entry) }
{
    matches!(item.text(), Some(word) if is_name(word))
}

fn is_last_name(item: Item<'_>) -> bool
    ensures { result ≡ item_is (λ w. is_some (name_before_bar w)) (item_view item.entry) }
{
    matches!(item.text(), Some(word) if name_before_bar(word).is_some())
}

fn is_first_name(item: Item<'_>) -> bool
    ensures { result ≡ item_is is_name_after_bar (item_view item.entry) }
{
    matches!(item.text(), Some(word) if is_name_after_bar(word))
}

// Whether the items are names, of which the last has a bar after it.
fn are_last_names(items: &[Item<'_>]) -> bool
    ensures { result ≡ are_last_names (map item_view items.now) }
{
    let mut rest = items;
    while let [item, after @ ..] = rest {
        if after.is_empty() {
            return is_last_name(*item);
        }
        if !is_name_item(*item) {
            return false;
        }
        rest = after;
    }
    false
}

// Whether the items are names between bars, two at least.
fn are_names(items: &[Item<'_>]) -> bool
    ensures { result ≡ are_names (map item_view items.now) }
{
    match items {
        [item, rest @ ..] => is_first_name(*item) && are_last_names(rest),
        [] => false,
    }
}

// Whether `as |name name|`, with any more names, is at the end.
fn has_names(items: &[Item<'_>]) -> bool
    ensures { result ≡ has_names (map item_view items.now) }
{
    let mut rest = items;
    while let [item, after @ ..] = rest {
        if is_word("as", *item) && are_names(after) {
            return true;
        }
        rest = after;
    }
    false
}

// Whether names for items are at the end.
fn has_parameters(items: &[Item<'_>]) -> bool
    ensures { result ≡ has_parameters (map item_view items.now) }
{
    let (_, parameter) = loop_items(items);
    parameter.is_some() || has_names(items)
}

/// The error of parentheses that don't match.
pub fn match_error(matched: bool) -> Option<TagError>
    ensures { result ≡ error_if BadPath (not matched) }
{
    error_if(TagError::BadPath, !matched)
}

#[tactic(auto, using(crate::proofs::Besides::read_beside))]
fn only_one(mut arguments: Vec<Result<Expression, TagError>>) -> Result<Expression, TagError>
    ensures { read_view result ≡ only_one (map read_view arguments.items) }
{
    if arguments.len() == 1 {
        return match arguments.pop() {
            Some(argument) => argument,
            None => unreachable!(),
        };
    }
    beside(
        errors_in(arguments.as_slice()),
        Err(TagError::WrongArguments),
    )
}

// The one argument that pieces are.
#[tactic(auto, using(crate::proofs::Besides::read_beside))]
fn piece_argument(
    alloc: Global,
    levels: &[Level],
    parts: Parts<'_>,
) -> Result<Result<Expression, TagError>, AllocError>
    requires { length levels.now < 2 ^ 32 }
    ensures { IfOk result (λ read. read_view read ≡ block_parts (reverse levels.now) (parts_view parts.entry)) }
{
    let Parts { pieces, matched } = parts;
    let argument = only_one(arguments(alloc, levels, pieces)?);
    Ok(beside(match_error(matched), argument))
}

// The one argument of a block.
#[tactic(auto, using(crate::proofs::Nests::block_parts_are))]
fn block_argument(
    alloc: Global,
    levels: &[Level],
    items: &[Item<'_>],
) -> Result<Result<Expression, TagError>, AllocError>
    requires { length levels.now < 2 ^ 32 }
    ensures { IfOk result
        (λ read. read_view read ≡ block_argument (reverse levels.now) (map item_view items.now)) }
{
    piece_argument(alloc, levels, tag_parts(alloc, levels, items)?)
}

// Another block in those that are open.
fn block_error(levels: &[Level]) -> Option<TagError>
    ensures { result ≡ block_error (reverse levels.now) }
{
    error_if(TagError::TooDeep, BLOCK_LIMIT <= levels.len())
}

// Another loop in the blocks that are open.
fn loop_error(levels: &[Level]) -> Option<TagError>
    ensures { result ≡ loop_error (reverse levels.now) }
{
    error_if(
        TagError::TooDeep,
        BLOCK_LIMIT <= levels.len() || LOOP_LIMIT <= loops_open(levels),
    )
}

fn if_read(unless: bool, read: Result<Expression, TagError>) -> Result<Tag, TagError>
    ensures { said_view result ≡ if_read unless (read_view read) }
{
    match read {
        Ok(test) => Ok(Tag::If { unless, test }),
        Err(error) => Err(error),
    }
}

#[tactic(auto, using(crate::proofs::Besides::said_beside))]
fn test_said(
    alloc: Global,
    levels: &[Level],
    unless: bool,
    items: &[Item<'_>],
) -> Result<Result<Tag, TagError>, AllocError>
    requires { length levels.now < 2 ^ 32 }
    ensures { IfOk result
        (λ said. said_view said ≡ test_said (reverse levels.now) unless (map item_view items.now)) }
{
    let named = error_if(TagError::UnsupportedTag, has_parameters(items));
    let tag = if_read(unless, block_argument(alloc, levels, items)?);
    Ok(beside(block_error(levels), beside(named, tag)))
}

fn data_only(read: Result<Expression, TagError>) -> Result<Datum, TagError>
    ensures { result ≡ data_only (read_view read) }
{
    match read {
        Ok(Expression::Datum(datum)) => Ok(datum),
        Ok(
            Expression::Text(_)
            | Expression::Index
            | Expression::Key
            | Expression::First
            | Expression::Last
            | Expression::Number(_)
            | Expression::Truth(_)
            | Expression::Call(_, _)
            | Expression::CallTwo(_, _, _),
        ) => Err(TagError::WrongArguments),
        Err(error) => Err(TagError::WrongArguments.earlier(error)),
    }
}

// Whether paths begin with that name already.
fn is_reserved_name(parameter: Option<&str>) -> bool
    ensures { result ≡ is_reserved_name (part_view parameter.entry) }
{
    matches!(parameter, Some(name) if name == "request" || name == "this")
}

// A copy of the name.
fn copied(alloc: Global, name: Option<&str>) -> Result<Option<Text>, AllocError>
    ensures { IfOk result (λ copy. copy ≡ part_view name.entry) }
{
    match name {
        Some(name) => Ok(Some(Text::from(String::from_str(alloc, name)?))),
        None => Ok(None),
    }
}

fn each_read(parameter: Option<Text>, read: Result<Datum, TagError>) -> Result<Tag, TagError>
    ensures { said_view result ≡ each_read parameter read }
{
    match read {
        Ok(over) => Ok(Tag::Each { over, parameter }),
        Err(error) => Err(error),
    }
}

#[tactic(auto, using(crate::proofs::Besides::said_beside))]
fn loop_said(
    alloc: Global,
    levels: &[Level],
    items: &[Item<'_>],
    parameter: Option<&str>,
) -> Result<Result<Tag, TagError>, AllocError>
    requires { length levels.now < 2 ^ 32 }
    ensures { IfOk result (λ said. said_view said
        ≡ loop_said (reverse levels.now) (with_items (map item_view items.now) (part_view parameter.entry))) }
{
    let taken = error_if(TagError::UnsupportedTag, is_reserved_name(parameter));
    let name = copied(alloc, parameter)?;
    let tag = each_read(name, data_only(block_argument(alloc, levels, items)?));
    Ok(beside(taken, tag))
}

#[tactic(auto, using(crate::proofs::Besides::said_beside))]
fn each_said(
    alloc: Global,
    levels: &[Level],
    items: &[Item<'_>],
) -> Result<Result<Tag, TagError>, AllocError>
    requires { length levels.now < 2 ^ 32 }
    ensures { IfOk result (λ said. said_view said ≡ each_said (reverse levels.now) (map item_view items.now)) }
{
    let named = error_if(TagError::UnsupportedTag, has_names(items));
    let (before, parameter) = loop_items(items);
    let tag = loop_said(alloc, levels, before, parameter)?;
    Ok(beside(loop_error(levels), beside(named, tag)))
}

/// What a tag that opens a block says.
pub fn opening_said(
    alloc: Global,
    levels: &[Level],
    block: Option<Block>,
    items: &[Item<'_>],
) -> Result<Result<Tag, TagError>, AllocError>
    requires { length levels.now < 2 ^ 32 }
    ensures { IfOk result
        (λ said. said_view said ≡ opening_said (reverse levels.now) block (map item_view items.now)) }
{
    match block {
        Some(Block::If) => test_said(alloc, levels, false, items),
        Some(Block::Unless) => test_said(alloc, levels, true, items),
        Some(Block::Each) => each_said(alloc, levels, items),
        None => Ok(Err(TagError::UnsupportedTag)),
    }
}

fn first_else(levels: &[Level]) -> Result<Tag, TagError>
    ensures { said_view result ≡ first_else (reverse levels.now) }
{
    match levels {
        [.., level] if !level.in_else => Ok(Tag::Else),
        _ => Err(TagError::UnexpectedClose),
    }
}

// The error of parts after a name that has no words after it.
fn extra_parts_error(parts: Parts<'_>) -> Option<TagError>
    ensures { result ≡ extra_parts_error (parts_view parts.entry) }
{
    let Parts { pieces, matched } = parts;
    let extra = error_if(TagError::UnsupportedTag, !pieces.is_empty());
    joined(match_error(matched), extra)
}

// The error of items after a name that has no words after it.
#[tactic(auto, using(crate::proofs::Nests::extra_error_is))]
fn extra_error(
    alloc: Global,
    levels: &[Level],
    items: &[Item<'_>],
) -> Result<Option<TagError>, AllocError>
    requires { length levels.now < 2 ^ 32 }
    ensures { IfOk result (λ e. e ≡ extra_error (map item_view items.now)) }
{
    Ok(extra_parts_error(tag_parts(alloc, levels, items)?))
}

/// What an else tag says.
#[tactic(auto, using(crate::proofs::Besides::said_beside))]
pub fn else_said(
    alloc: Global,
    levels: &[Level],
    items: &[Item<'_>],
) -> Result<Result<Tag, TagError>, AllocError>
    requires { length levels.now < 2 ^ 32 }
    ensures { IfOk result (λ said. said_view said ≡ else_said (reverse levels.now) (map item_view items.now)) }
{
    let error = extra_error(alloc, levels, items)?;
    Ok(beside(error, first_else(levels)))
}

fn is_innermost(name: &str, levels: &[Level]) -> bool
    ensures { result ≡ is_innermost name.now (reverse levels.now) }
{
    match levels {
        [.., level] => name == level.block.name(),
        [] => false,
    }
}

// The error of all pieces, as arguments.
fn all_parts_error(
    alloc: Global,
    levels: &[Level],
    parts: Parts<'_>,
) -> Result<Option<TagError>, AllocError>
    requires { length levels.now < 2 ^ 32 }
    ensures { IfOk result (λ e. e ≡ all_parts_error (reverse levels.now) (parts_view parts.entry)) }
{
    let Parts { pieces, matched } = parts;
    let arguments = arguments(alloc, levels, pieces)?;
    Ok(joined(match_error(matched), errors_in(arguments.as_slice())))
}

// The error of all items, as arguments.
#[tactic(auto, using(crate::proofs::Nests::all_errors_are))]
fn all_errors(
    alloc: Global,
    levels: &[Level],
    items: &[Item<'_>],
) -> Result<Option<TagError>, AllocError>
    requires { length levels.now < 2 ^ 32 }
    ensures { IfOk result (λ e. e ≡ all_errors (reverse levels.now) (map item_view items.now)) }
{
    all_parts_error(alloc, levels, tag_parts(alloc, levels, items)?)
}

/// What a tag with `/` and that name says.
#[tactic(auto, using(crate::proofs::Besides::said_beside))]
pub fn closing_said(
    alloc: Global,
    levels: &[Level],
    name: &str,
    items: &[Item<'_>],
) -> Result<Result<Tag, TagError>, AllocError>
    requires { length levels.now < 2 ^ 32 }
    ensures { IfOk result
        (λ said. said_view said ≡ closing_said (reverse levels.now) name.now (map item_view items.now)) }
{
    if is_innermost(name, levels) {
        let error = extra_error(alloc, levels, items)?;
        return Ok(beside(error, Ok(Tag::Close)));
    }
    let error = all_errors(alloc, levels, items)?;
    Ok(beside(error, Err(TagError::UnexpectedClose)))
}
