// What a word of a tag is, and the value that it names.
ghost use Rattle.std.specs.Prelude.{◌≡◌, ◌<◌, ◌^◌, length, reverse, option_map, IfOk};
ghost use Rattle.template_tags.specs.Words.{loop_word_of, helper_named, literal_of, known_word, other_word, word_of};
ghost use Rattle.template_tags.specs.Words.{steps_in, found_datum, datum_of, loop_value};
ghost use Rattle.template_tags.specs.Inner.WordReads.{word_value, argument_word, lone_value};
ghost use Rattle.template_tags.specs.Expression.{expression_view};
ghost use Rattle.template_tags.specs.Inner.Views.{word_view, read_view};
ghost use Rattle.template_words.specs.Paths.{rest_of_steps};

use crate::expression::{Datum, Expression};
use crate::level::{Level, loop_with_parameter, loops_open};
use crate::word_text::WordText;
use data_tree::step::{Path, Step};
use helper_set::helper::Helper;
use plain_text::text::Text;
use std::alloc::{AllocError, Global};
use template_words::error::{ReadError, TagError};
use template_words::literal::{text_literal, truth_literal, whole_number};
use template_words::marks::after_mark;
use template_words::names::{first_part, is_hash_argument};
use template_words::paths::reference_of;
use template_words::reference::Reference;
use template_words::words::is_foreign_helper;

/// A word that speaks of the innermost loop.
#[derive(Clone, Copy, Debug)]
pub enum LoopWord {
    Index,
    Key,
    First,
    Last,
}

/// A word as it is read.
#[derive(Debug, Drop)]
pub enum Word<'a> {
    Text(&'a str),
    Number(i64),
    Truth(bool),
    Loop(LoopWord),
    Helper(Helper),
    /// The name of a helper that only other implementations of Handlebars have.
    Foreign,
    Path(Reference),
    Wrong(TagError),
}

fn loop_word_of(text: &str) -> Option<LoopWord>
    ensures { result ≡ loop_word_of text.now }
{
    match text {
        "@index" => Some(LoopWord::Index),
        "@key" => Some(LoopWord::Key),
        "@first" => Some(LoopWord::First),
        "@last" => Some(LoopWord::Last),
        _ => None,
    }
}

fn helper_named(text: &str) -> Option<Helper>
    ensures { result ≡ helper_named text.now }
{
    Helper::from_name(text)
}

fn literal_of(text: &str) -> Option<Word<'_>>
    ensures { option_map word_view result ≡ literal_of text.now }
{
    if let Some(literal) = text_literal(text) {
        return Some(Word::Text(literal));
    }
    if let Some(number) = whole_number(text) {
        return Some(Word::Number(number));
    }
    Some(Word::Truth(truth_literal(text)?))
}

fn known_word(text: &str) -> Option<Word<'_>>
    ensures { option_map word_view result ≡ known_word text.now }
{
    if let Some(literal) = literal_of(text) {
        return Some(literal);
    }
    if let Some(word) = loop_word_of(text) {
        return Some(Word::Loop(word));
    }
    Some(Word::Helper(helper_named(text)?))
}

// A word that is no literal, no word of loops and no helper.
fn other_word<'a>(alloc: Global, text: &str) -> Result<Word<'a>, AllocError>
    requires { length text.now < 2 ^ 31 }
    ensures { IfOk result (λ word. word_view word ≡ other_word text.now) }
{
    if is_foreign_helper(text) {
        return Ok(Word::Foreign);
    }
    if after_mark(text, "@").is_some() {
        return Ok(Word::Wrong(TagError::UnsupportedTag));
    }
    match reference_of(alloc, text) {
        Ok(reference) => Ok(Word::Path(reference)),
        Err(ReadError::Tag(error)) => Ok(Word::Wrong(error)),
        Err(ReadError::OutOfMemory) => Err(AllocError),
    }
}

/// What the word is.
#[tactic(auto, unfolding(crate::specs::Words::word_of))]
pub fn word_of<'a>(alloc: Global, word: WordText<'a>) -> Result<Word<'a>, AllocError>
    ensures { IfOk result (λ read. word_view read ≡ word_of word.entry.text.now) }
{
    match known_word(word.text) {
        Some(known) => Ok(known),
        None => other_word(alloc, word.text),
    }
}

// The path that the reference has.
fn steps_in(reference: Reference) -> Path
    ensures { result ≡ steps_in reference }
{
    match reference {
        Reference::Root(steps) => steps,
        Reference::Item { depth: _, steps } => steps,
    }
}

// A path of copies of the steps.
fn path_of(alloc: Global, steps: &[Step]) -> Result<Path, AllocError>
    ensures { IfOk result (λ path. path ≡ steps.now) }
{
    let mut copies = Vec::new(alloc);
    for step in steps {
        copies.push(step.clone()?)?;
    }
    Ok(Path::new(copies))
}

// A copy of the path without its first step.
fn rest_of_steps(alloc: Global, path: &Path) -> Result<Path, AllocError>
    ensures { IfOk result (λ rest. rest ≡ rest_of_steps path.now) }
{
    match path.steps() {
        [] => Ok(Path::new(Vec::new(alloc))),
        [_, rest @ ..] => path_of(alloc, rest),
    }
}

// A path that begins with no name of a loop's items.
fn found_datum(loops: usize, reference: Reference) -> Datum
    ensures { result ≡ found_datum loops reference }
{
    match reference {
        Reference::Root(steps) => Datum::Root(steps),
        Reference::Item { depth, steps } => {
            if (depth as usize) < loops {
                Datum::Item { up: depth, steps }
            } else {
                Datum::Nothing
            }
        }
    }
}

/// Where the path leads that the word spells.
fn datum_of(
    alloc: Global,
    levels: &[Level],
    text: &str,
    reference: Reference,
) -> Result<Datum, AllocError>
    requires { length levels.now < 2 ^ 32 }
    ensures { IfOk result (λ datum. datum ≡ datum_of (reverse levels.now) text.now reference) }
{
    match loop_with_parameter(levels, first_part(text)) {
        Some(up) => Ok(Datum::Item {
            up,
            steps: rest_of_steps(alloc, &steps_in(reference))?,
        }),
        None => Ok(found_datum(loops_open(levels), reference)),
    }
}

fn loop_value(loops: usize, word: LoopWord) -> Expression
    ensures { expression_view result ≡ loop_value loops word }
{
    if loops == 0 {
        return Expression::Datum(Datum::Nothing);
    }
    match word {
        LoopWord::Index => Expression::Index,
        LoopWord::Key => Expression::Key,
        LoopWord::First => Expression::First,
        LoopWord::Last => Expression::Last,
    }
}

fn word_value(
    alloc: Global,
    levels: &[Level],
    text: &str,
    word: Word<'_>,
) -> Result<Result<Expression, TagError>, AllocError>
    requires { length levels.now < 2 ^ 32 }
    ensures { IfOk result
        (λ read. read_view read ≡ word_value (reverse levels.now) text.now (word_view word.entry)) }
{
    Ok(match word {
        Word::Text(literal) => Ok(Expression::Text(Text::from(String::from_str(alloc, literal)?))),
        Word::Number(number) => Ok(Expression::Number(number)),
        Word::Truth(truth) => Ok(Expression::Truth(truth)),
        Word::Loop(word) => Ok(loop_value(loops_open(levels), word)),
        Word::Helper(_) => Err(TagError::WrongArguments),
        Word::Foreign => Err(TagError::UnknownHelper),
        Word::Path(reference) => Ok(Expression::Datum(datum_of(alloc, levels, text, reference)?)),
        Word::Wrong(error) => Err(error),
    })
}

/// The value of a word that is an argument.
pub fn argument_word(
    alloc: Global,
    levels: &[Level],
    word: WordText<'_>,
) -> Result<Result<Expression, TagError>, AllocError>
    requires { length levels.now < 2 ^ 32 }
    ensures { IfOk result (λ read. read_view read ≡ argument_word (reverse levels.now) word.entry.text.now) }
{
    if is_hash_argument(word.text) {
        return Ok(Err(TagError::UnsupportedTag));
    }
    word_value(alloc, levels, word.text, word_of(alloc, word)?)
}

/// The value of a word.
pub fn read_value(
    alloc: Global,
    levels: &[Level],
    word: WordText<'_>,
) -> Result<Result<Expression, TagError>, AllocError>
    requires { length levels.now < 2 ^ 32 }
    ensures { IfOk result
        (λ read. read_view read
        ≡ word_value (reverse levels.now) word.entry.text.now (word_of word.entry.text.now)) }
{
    word_value(alloc, levels, word.text, word_of(alloc, word)?)
}

/// The value of a word alone in a tag.
pub fn lone_value(
    alloc: Global,
    levels: &[Level],
    word: WordText<'_>,
) -> Result<Result<Expression, TagError>, AllocError>
    requires { length levels.now < 2 ^ 32 }
    ensures { IfOk result
        (λ read. read_view read
        ≡ lone_value (reverse levels.now) word.entry.text.now (word_of word.entry.text.now)) }
{
    match word_of(alloc, word)? {
        Word::Text(_) | Word::Number(_) | Word::Truth(_) => Ok(Err(TagError::UnsupportedTag)),
        read => word_value(alloc, levels, word.text, read),
    }
}
