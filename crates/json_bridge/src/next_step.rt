// The step that a text begins with.
ghost use Rattle.std.specs.Prelude.{◌≡◌, ◌<◌, length, IfOk};
ghost use Rattle.json_bridge.specs.Path.{is_step_byte};
ghost use Rattle.json_bridge.specs.Inner.NextStep.{name_at, cut_at, after_byte, step_view, part_view, parts_view};
ghost use Rattle.json_bridge.specs.Inner.NextStep.{dotted, quoted, indexed, bracketed, next_step, found_view};

use data_tree::digits::index_of;
use data_tree::step::Step;
use std::alloc::{AllocError, Global};

/// A step as a text spells it.
#[derive(Clone, Copy)]
pub enum StepText<'a> {
    Name(&'a str),
    Index(u32),
}

impl StepText<'_> {
    /// The step, with its name copied.
    pub fn to_step(&self, alloc: Global) -> Result<Step, AllocError>
        ensures { IfOk result (λ step. step ≡ step_view self.now) }
    {
        match self {
            StepText::Name(name) => Step::named(alloc, name),
            StepText::Index(index) => Ok(Step::Index(*index)),
        }
    }
}

/// What follows the ASCII character that the text begins with, if it does.
pub fn after_byte(text: &str, mark: char) -> Option<&str>
    requires { mark < 128 }
    ensures { part_view result ≡ after_byte mark text.now }
{
    text.strip_prefix(mark)
}

/// What is before the first such ASCII character, and what follows it.
fn cut_at(text: &str, mark: char) -> Option<(&str, &str)>
    requires { mark < 128 }
    ensures { parts_view result ≡ cut_at mark text.now }
{
    text.split_once(mark)
}

fn is_step_byte(byte: u8) -> bool
    ensures { result ≡ is_step_byte byte }
{
    byte.is_ascii_alphanumeric() || byte == b'_' || byte == b'-'
}

fn name_length(text: &[u8]) -> usize
    ensures { result ≡ length (name_at text.now) }
{
    let mut rest = text;
    while let [byte, after @ ..] = rest {
        if !is_step_byte(*byte) {
            return text.len() - rest.len();
        }
        rest = after;
    }
    text.len()
}

/// What follows a `.`: a name.
fn dotted(text: &str) -> Option<(StepText<'_>, &str)>
    ensures { found_view result ≡ dotted text.now }
{
    let (name, rest) = text.split_at(name_length(text.as_bytes()));
    if name.is_empty() {
        return None;
    }
    Some((StepText::Name(name), rest))
}

/// What follows a `['`: a text up to the next `'`, and a `]`.
fn quoted(text: &str) -> Option<(StepText<'_>, &str)>
    ensures { found_view result ≡ quoted text.now }
{
    let (name, rest) = cut_at(text, '\'')?;
    let rest = after_byte(rest, ']')?;
    Some((StepText::Name(name), rest))
}

/// What follows a `[`: a number and a `]`.
fn indexed(text: &str) -> Option<(StepText<'_>, &str)>
    ensures { found_view result ≡ indexed text.now }
{
    let (digits, rest) = cut_at(text, ']')?;
    let index = index_of(digits)?;
    Some((StepText::Index(index), rest))
}

fn bracketed(text: &str) -> Option<(StepText<'_>, &str)>
    ensures { found_view result ≡ bracketed text.now }
{
    match after_byte(text, '\'') {
        Some(rest) => quoted(rest),
        None => indexed(text),
    }
}

/// The step that a text begins with, and what follows it, if it begins with one.
pub fn next_step(text: &str) -> Option<(StepText<'_>, &str)>
    ensures { found_view result ≡ next_step text.now }
{
    match after_byte(text, '.') {
        Some(rest) => dotted(rest),
        None => bracketed(after_byte(text, '[')?),
    }
}
