// Reading a word as a path.
ghost use Rattle.std.specs.Prelude.{◌≡◌, ◌+◌, ◌<◌, ◌^◌, false, ◌∷◌, [], length, take, drop};
ghost use Rattle.std.specs.Prelude.{slice_index, MatchOption, IfSome, IfNone};
ghost use Rattle.std.specs.List.{list_all};
ghost use Rattle.template_words.specs.Bytes.{dot};
ghost use Rattle.template_words.specs.Paths.{is_name_byte, is_name, step_named, next_in_bracket, is_separator};
ghost use Rattle.template_words.specs.Paths.{dotted_parts, is_step, begins_with_step, rest_of_steps, is_reserved};
ghost use Rattle.template_words.specs.Paths.{in_lower_case, names_header, header_in_lower_case, reference_at};
ghost use Rattle.template_words.specs.PathReads.{step_of, all_steps, reference_below, reference_of};
ghost use Rattle.template_words.specs.Reading.{Gives};

use crate::error::{ReadError, TagError};
use crate::marks::after_mark;
use crate::reference::Reference;
use crate::words::enclosed;
use data_tree::digits::index_of;
use data_tree::step::{Path, Step};
use plain_text::text::Text;
use std::alloc::Global;
use std::mem;

fn is_name_byte(byte: u8) -> bool
    ensures { result ≡ is_name_byte byte }
{
    !b" \t\r\n!\"#%&'()*+,./;<=>@[\\]^`{|}~".contains(&byte)
}

fn all_name_bytes(text: &str) -> bool
    ensures { result ≡ list_all is_name_byte text.now }
{
    text.as_bytes().iter().all(|byte| is_name_byte(*byte))
}

/// Whether the text is a name outside of brackets.
pub fn is_name(text: &str) -> bool
    ensures { result ≡ is_name text.now }
{
    !text.is_empty() && all_name_bytes(text)
}

/// The step that a name, or the text in brackets, spells.
fn step_named(alloc: Global, text: &str) -> Result<Step, ReadError>
    ensures { Gives (λ step. step) result (Ok (step_named text.now)) }
{
    match index_of(text) {
        Some(index) => Ok(Step::Index(index)),
        None => Ok(Step::named(alloc, text)?),
    }
}

#[tactic(auto, unfolding(crate::specs::PathReads::step_of))]
fn step_of(alloc: Global, text: &str) -> Result<Step, ReadError>
    ensures { Gives (λ step. step) result (step_of text.now) }
{
    match enclosed(text, "[", "]") {
        Some(inner) => step_named(alloc, inner),
        None if is_name(text) => step_named(alloc, text),
        None => Err(ReadError::Tag(TagError::BadPath)),
    }
}

fn next_in_bracket(inside: bool, byte: u8) -> bool
    ensures { result ≡ next_in_bracket inside byte }
{
    if inside { byte != b']' } else { byte == b'[' }
}

fn is_separator(inside: bool, byte: u8) -> bool
    ensures { result ≡ is_separator inside byte }
{
    if inside { false } else { byte == b'.' }
}

/// The byte offset of the first dot outside of brackets.
fn dot_offset(text: &[u8]) -> Option<usize>
    ensures none { IfNone result (dotted_parts false text.now ≡ text.now ∷ []) }
    ensures inside { IfSome result (λ n. n < length text.now) }
    ensures dot { IfSome result (λ n. slice_index text.now n ≡ dot) }
    ensures parts { IfSome result
        (λ n. dotted_parts false text.now ≡ take n text.now ∷ dotted_parts false (drop (n + 1) text.now)) }
{
    // A loop, since brackets open and close.
    let mut inside = false;
    let mut at = 0;
    let mut rest = text;
    while let [byte, after @ ..] = rest {
        if is_separator(inside, *byte) {
            return Some(at);
        }
        inside = next_in_bracket(inside, *byte);
        at += 1;
        rest = after;
    }
    None
}

/// The text before that dot, and after it.
pub(crate) fn around_dot<'a>(text: &'a str) -> Option<(&'a str, &'a str)>
    ensures parts { MatchOption result (dotted_parts false text.now ≡ text.now ∷ [])
        (λ x. dotted_parts false text.now ≡ x.0.now ∷ dotted_parts false x.1.now) }
    ensures shorter { IfSome result (λ x. length x.1.now < length text.now) }
{
    let offset = dot_offset(text.as_bytes())?;
    let (front, dotted) = text.split_at(offset);
    let (_, after) = dotted.split_at(1);
    Some((front, after))
}

/// The steps that the parts between dots spell.
fn steps_of(alloc: Global, text: &str) -> Result<Vec<Step>, ReadError>
    ensures { Gives (λ steps. steps.items) result (all_steps (dotted_parts false text.now)) }
{
    let mut steps = Vec::new(alloc);
    let mut rest = text;
    while let Some((part, after)) = around_dot(rest) {
        let step = step_of(alloc, part)?;
        steps.push(step)?;
        rest = after;
    }
    let step = step_of(alloc, rest)?;
    steps.push(step)?;
    Ok(steps)
}

/// Whether the step is of that name.
pub fn is_step(step: &Step, name: &str) -> bool
    ensures { result ≡ is_step name.now step.now }
{
    matches!(step, Step::Name(text) if text.as_str() == name)
}

fn begins_with_step(steps: &[Step], name: &str) -> bool
    ensures { result ≡ begins_with_step name.now steps.now }
{
    match steps {
        [] => false,
        [step, ..] => is_step(step, name),
    }
}

fn is_reserved(steps: &[Step]) -> bool
    ensures { result ≡ is_reserved steps.now }
{
    match steps {
        [] => false,
        [_, rest @ ..] => {
            begins_with_step(steps, "parameters")
                || (begins_with_step(steps, "request")
                    && (begins_with_step(rest, "id") || begins_with_step(rest, "clientIp")))
        }
    }
}

fn in_lower_case(step: Step) -> Step
    ensures { result ≡ in_lower_case step }
{
    match step {
        Step::Name(text) => {
            let mut text = text.into_string();
            text.make_ascii_lowercase();
            Step::Name(Text::from(text))
        }
        Step::Index(index) => Step::Index(index),
    }
}

fn names_header(steps: &[Step]) -> bool
    ensures { result ≡ names_header steps.now }
{
    matches!(steps, [_, second, _, ..] if is_step(second, "headers"))
}

fn header_in_lower_case(mut steps: Vec<Step>) -> Vec<Step>
    ensures { result.items ≡ header_in_lower_case steps.items }
{
    if names_header(steps.as_slice()) {
        let step = &mut steps[2];
        let header = mem::replace(step, Step::Index(0));
        *step = in_lower_case(header);
    }
    steps
}

fn rest_of_steps(mut steps: Vec<Step>) -> Vec<Step>
    ensures { result.items ≡ rest_of_steps steps.items }
{
    if !steps.is_empty() {
        let _ = steps.remove(0);
    }
    steps
}

fn reference_at(depth: u32, steps: Vec<Step>) -> Reference
    ensures { result ≡ reference_at depth steps.items }
{
    if begins_with_step(steps.as_slice(), "request") {
        Reference::Root(Path::new(header_in_lower_case(steps)))
    } else if begins_with_step(steps.as_slice(), "this") {
        Reference::Item {
            depth,
            steps: Path::new(rest_of_steps(steps)),
        }
    } else {
        Reference::Item {
            depth,
            steps: Path::new(steps),
        }
    }
}

// What the rest of a word, after `depth` times `../`, refers to.
fn reference_below(alloc: Global, depth: u32, text: &str) -> Result<Reference, ReadError>
    requires { depth + 1 < 2 ^ 32 }
    ensures { Gives (λ reference. reference) result (reference_below depth text.now) }
{
    if text == "." {
        return Ok(Reference::Item {
            depth,
            steps: Path::new(Vec::new(alloc)),
        });
    }
    if text == ".." {
        return Ok(Reference::Item {
            depth: depth + 1,
            steps: Path::new(Vec::new(alloc)),
        });
    }
    if text.starts_with("[") {
        return Err(ReadError::Tag(TagError::BadPath));
    }
    let steps = steps_of(alloc, text)?;
    if is_reserved(steps.as_slice()) {
        return Err(ReadError::Tag(TagError::UnsupportedTag));
    }
    Ok(reference_at(depth, steps))
}

/// What a word refers to.
pub fn reference_of(alloc: Global, text: &str) -> Result<Reference, ReadError>
    requires { length text.now < 2 ^ 31 }
    ensures { Gives (λ reference. reference) result (reference_of text.now) }
{
    let mut depth = 0;
    let mut rest = text;
    while let Some(after) = after_mark(rest, "../") {
        depth += 1;
        rest = after;
    }
    reference_below(alloc, depth, rest)
}
