// The values that arguments and calls name, and their errors.
ghost use Rattle.std.specs.Prelude.{◌≡◌, ◌<◌, ◌^◌, Ok, is_some, length, map, reverse, IfOk};
ghost use Rattle.json_bridge.specs.PathFound.{path_of};
ghost use Rattle.template_tags.specs.Inner.CallReads.{beside, error_if, error_in, errors_in, one_value, pair_call};
ghost use Rattle.template_tags.specs.Inner.CallReads.{two_values, is_body, literal_in, body_call, json_path_call};
ghost use Rattle.template_tags.specs.Inner.CallReads.{called, call_of, head_word, limited};
ghost use Rattle.template_tags.specs.Calls.{is_body_path};
ghost use Rattle.template_tags.specs.Expression.{datum};
ghost use Rattle.template_tags.specs.Inner.Pieces.{piece_argument, piece_arguments, piece_helper, piece_call};
ghost use Rattle.template_tags.specs.Inner.Views.{read_view, word_view, piece_view, pieces_view};
ghost use Rattle.template_words.specs.Views.{part_view};

use crate::expression::{CALL_LIMIT, Datum, Expression};
use crate::level::Level;
use crate::nest::Piece;
use crate::word::{Word, argument_word, word_of};
use data_tree::step::Step;
use helper_set::helper::Helper;
use helper_set::signature::signature;
use json_bridge::json_path::is_json_path;
use plain_text::text::Text;
use std::alloc::{AllocError, Global};
use template_words::error::{TagError, joined};
use template_words::paths::is_step;

/// What is read, or the error that is reported where this one is found beside it.
pub fn beside<T: Drop>(error: Option<TagError>, read: Result<T, TagError>) -> Result<T, TagError>
    ensures { result ≡ beside error read }
{
    match error {
        None => read,
        Some(error) => match read {
            Ok(_) => Err(error),
            Err(other) => Err(error.earlier(other)),
        },
    }
}

/// The error, if it was found.
pub fn error_if(error: TagError, found: bool) -> Option<TagError>
    ensures { result ≡ error_if error found }
{
    if found { Some(error) } else { None }
}

fn error_in(read: &Result<Expression, TagError>) -> Option<TagError>
    ensures { result ≡ error_in (read_view read.now) }
{
    match read {
        Ok(_) => None,
        Err(error) => Some(*error),
    }
}

/// The error that is reported of some arguments.
#[tactic(auto, using(crate::proofs::Joins::joined_assoc, crate::proofs::Joins::joined_none))]
pub fn errors_in(reads: &[Result<Expression, TagError>]) -> Option<TagError>
    ensures { result ≡ errors_in (map read_view reads.now) }
{
    let mut error = None;
    let mut rest = reads;
    while let [read, after @ ..] = rest {
        error = joined(error, error_in(read));
        rest = after;
    }
    error
}

/// A group of that height.
pub fn limited(height: usize, read: Result<Expression, TagError>) -> Result<Expression, TagError>
    ensures { read_view result ≡ limited height (read_view read) }
{
    match read {
        Ok(_) if CALL_LIMIT < height => Err(TagError::TooDeep),
        read => read,
    }
}

// A helper's call on one value.
fn one_value(
    alloc: Global,
    helper: Helper,
    mut arguments: Vec<Result<Expression, TagError>>,
) -> Result<Result<Expression, TagError>, AllocError>
    ensures { IfOk result (λ read. read_view read ≡ one_value helper (map read_view arguments.items)) }
{
    match arguments.pop() {
        Some(first) if arguments.is_empty() => match first {
            Ok(value) => Ok(Ok(Expression::Call(helper, Box::new(alloc, value)?))),
            Err(error) => Ok(Err(error)),
        },
        _ => Ok(Err(TagError::WrongArguments)),
    }
}

fn pair_call(
    alloc: Global,
    helper: Helper,
    first: Result<Expression, TagError>,
    second: Result<Expression, TagError>,
) -> Result<Result<Expression, TagError>, AllocError>
    ensures { IfOk result (λ read. read_view read ≡ pair_call helper (read_view first) (read_view second)) }
{
    let first = match first {
        Ok(value) => value,
        Err(error) => return Ok(Err(error)),
    };
    let second = match second {
        Ok(value) => value,
        Err(error) => return Ok(Err(error)),
    };
    Ok(Ok(Expression::CallTwo(helper, Box::new(alloc, first)?, Box::new(alloc, second)?)))
}

// A helper's call on two values.
fn two_values(
    alloc: Global,
    helper: Helper,
    mut arguments: Vec<Result<Expression, TagError>>,
) -> Result<Result<Expression, TagError>, AllocError>
    ensures { IfOk result (λ read. read_view read ≡ two_values helper (map read_view arguments.items)) }
{
    if arguments.len() != 2 {
        return Ok(Err(TagError::WrongArguments));
    }
    match arguments.pop() {
        Some(second) => match arguments.pop() {
            Some(first) => pair_call(alloc, helper, first, second),
            None => unreachable!(),
        },
        None => unreachable!(),
    }
}

fn is_body_path(steps: &[Step]) -> bool
    ensures { result ≡ is_body_path steps.now }
{
    matches!(steps, [first, second] if is_step(first, "request") && is_step(second, "body"))
}

fn is_body_datum(found: &Datum) -> bool
    ensures { result ≡ is_body (Ok (datum found.now)) }
{
    match found {
        Datum::Root(path) => is_body_path(path.steps()),
        Datum::Nothing => false,
        Datum::Item { up: _, steps: _ } => false,
        Datum::BodyPath(_) => false,
    }
}

// Whether it is the path `request.body`.
fn is_body(read: &Result<Expression, TagError>) -> bool
    ensures { result ≡ is_body (read_view read.now) }
{
    match read {
        Ok(value) => match value {
            Expression::Datum(found) => is_body_datum(found),
            Expression::Index => false,
            Expression::Key => false,
            Expression::First => false,
            Expression::Last => false,
            Expression::Text(_) => false,
            Expression::Number(_) => false,
            Expression::Truth(_) => false,
            Expression::Call(_, _) => false,
            Expression::CallTwo(_, _, _) => false,
        },
        Err(_) => false,
    }
}

fn literal_in(read: &Result<Expression, TagError>) -> Option<&str>
    ensures { part_view result ≡ literal_in (read_view read.now) }
{
    match read {
        Ok(value) => match value {
            Expression::Text(text) => Some(text.as_str()),
            Expression::Datum(_) => None,
            Expression::Index => None,
            Expression::Key => None,
            Expression::First => None,
            Expression::Last => None,
            Expression::Number(_) => None,
            Expression::Truth(_) => None,
            Expression::Call(_, _) => None,
            Expression::CallTwo(_, _, _) => None,
        },
        Err(_) => None,
    }
}

// Whether the text is a JSON path.
fn is_path(text: &str) -> bool
    ensures { result ≡ is_some (path_of text.now) }
{
    is_json_path(text)
}

// A JSON path in the body of the request, where the other arguments of `jsonPath` fit.
fn body_call(
    alloc: Global,
    fits: bool,
    literal: Option<&str>,
) -> Result<Result<Expression, TagError>, AllocError>
    ensures { IfOk result (λ read. read_view read ≡ body_call fits (part_view literal.entry)) }
{
    let Some(text) = literal else {
        return Ok(Err(TagError::WrongArguments));
    };
    if !is_path(text) {
        return Ok(Err(TagError::BadPath));
    }
    if !fits {
        return Ok(Err(TagError::WrongArguments));
    }
    let path = Text::from(String::from_str(alloc, text)?);
    Ok(Ok(Expression::Datum(Datum::BodyPath(path))))
}

fn json_path_call(
    alloc: Global,
    arguments: &[Result<Expression, TagError>],
) -> Result<Result<Expression, TagError>, AllocError>
    ensures { IfOk result (λ read. read_view read ≡ json_path_call (map read_view arguments.now)) }
{
    match arguments {
        [first, second] => body_call(alloc, is_body(first), literal_in(second)),
        [_, second, ..] => body_call(alloc, false, literal_in(second)),
        _ => Ok(Err(TagError::WrongArguments)),
    }
}

fn called(
    alloc: Global,
    helper: Helper,
    arguments: Vec<Result<Expression, TagError>>,
) -> Result<Result<Expression, TagError>, AllocError>
    ensures { IfOk result (λ read. read_view read ≡ called helper (map read_view arguments.items)) }
{
    if let Helper::JsonPath = helper {
        return json_path_call(alloc, arguments.as_slice());
    }
    match signature(helper).second {
        None => one_value(alloc, helper, arguments),
        Some(_) => two_values(alloc, helper, arguments),
    }
}

// A call, of which each argument is looked at.
#[tactic(auto, using(crate::proofs::Besides::read_beside))]
fn call_of(
    alloc: Global,
    head: Result<Helper, TagError>,
    arguments: Vec<Result<Expression, TagError>>,
) -> Result<Result<Expression, TagError>, AllocError>
    ensures { IfOk result (λ read. read_view read ≡ call_of head (map read_view arguments.items)) }
{
    let error = errors_in(arguments.as_slice());
    let value = match head {
        Ok(helper) => called(alloc, helper, arguments)?,
        Err(error) => Err(error),
    };
    Ok(beside(error, value))
}

// The helper that a word with arguments names.
fn head_word(word: Word<'_>) -> Result<Helper, TagError>
    ensures { result ≡ head_word (word_view word.entry) }
{
    match word {
        Word::Helper(helper) => Ok(helper),
        Word::Wrong(error) => Err(TagError::UnknownHelper.earlier(error)),
        _ => Err(TagError::UnknownHelper),
    }
}

// The helper of a call; a group is none.
fn helper_read(alloc: Global, piece: Piece<'_>) -> Result<Result<Helper, TagError>, AllocError>
    ensures { IfOk result (λ helper. helper ≡ piece_helper (piece_view piece.entry)) }
{
    match piece {
        Piece::Word(word) => Ok(head_word(word_of(alloc, word)?)),
        Piece::Group { value, height: _ } => match value {
            Ok(_) => Ok(Err(TagError::UnknownHelper)),
            Err(error) => Ok(Err(error.earlier(TagError::UnknownHelper))),
        },
    }
}

fn argument(
    alloc: Global,
    levels: &[Level],
    piece: Piece<'_>,
) -> Result<Result<Expression, TagError>, AllocError>
    requires { length levels.now < 2 ^ 32 }
    ensures { IfOk result (λ read. read_view read ≡ piece_argument (reverse levels.now) (piece_view piece.entry)) }
{
    match piece {
        Piece::Word(word) => argument_word(alloc, levels, word),
        Piece::Group { value, height: _ } => Ok(value),
    }
}

/// The values of arguments, in order, of which the last piece is the first.
pub fn arguments(
    alloc: Global,
    levels: &[Level],
    mut pieces: Vec<Piece<'_>>,
) -> Result<Vec<Result<Expression, TagError>>, AllocError>
    requires { length levels.now < 2 ^ 32 }
    ensures { IfOk result (λ reads. map read_view reads.items
        ≡ piece_arguments (reverse levels.now) (pieces_view pieces.entry.items)) }
{
    let mut arguments = Vec::new(alloc);
    while let Some(piece) = pieces.pop() {
        arguments.push(argument(alloc, levels, piece)?)?;
    }
    Ok(arguments)
}

/// A helper and its arguments.
pub fn call_read(
    alloc: Global,
    levels: &[Level],
    mut pieces: Vec<Piece<'_>>,
) -> Result<Result<Expression, TagError>, AllocError>
    requires { length levels.now < 2 ^ 32 }
    ensures { IfOk result (λ read. read_view read
        ≡ piece_call (reverse levels.now) (pieces_view pieces.entry.items)) }
{
    match pieces.pop() {
        None => Ok(Err(TagError::WrongArguments)),
        Some(head) => {
            let helper = helper_read(alloc, head)?;
            let arguments = arguments(alloc, levels, pieces)?;
            call_of(alloc, helper, arguments)
        }
    }
}
