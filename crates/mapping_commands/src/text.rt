// An explanation as text.
ghost use Rattle.std.specs.Prelude.{◌≡◌, IfOk, string_bytes};
ghost use Rattle.mapping_commands.specs.Explaining.{NamesMapping, front_of};

use crate::explanation::{Explained, Explanation};
use itoa::Buffer;
use match_difference::said::{line_of, quoted};
use request_journal::event::ServeAnswer;
use std::alloc::{AllocError, Global};

/// What begins a colour on a terminal, and what ends it.
const GREEN: &str = "\u{1b}[32m";

const YELLOW: &str = "\u{1b}[33m";

const RED: &str = "\u{1b}[31m";

const PLAIN: &str = "\u{1b}[0m";

/// The first line names the mapping that answers.
pub(crate) fn text_of(
    alloc: Global,
    explanation: &Explanation,
    is_coloured: bool,
) -> Result<String, AllocError>
    ensures { IfOk result (λ text. NamesMapping explanation.now.answer (string_bytes text)) }
{
    let mut text = answer_front(alloc, explanation.number, &explanation.answer)?;
    let rest = rest_of(alloc, explanation, is_coloured)?;
    text.push_str(rest.as_str())?;
    Ok(text)
}

/// As `mapping 2 (id 3f83df0b-a3bf-5f1c-9b5c-bffae2bac110`.
fn answer_front(alloc: Global, number: usize, answer: &ServeAnswer) -> Result<String, AllocError>
    ensures { IfOk result (λ text. string_bytes text ≡ front_of number answer.now) }
{
    match answer {
        ServeAnswer::Stub(captured) => {
            let id = captured.mapping.id.hyphenated(alloc)?;
            let mut text = String::from_str(alloc, "mapping ")?;
            text.push_str(Buffer::new().format(number))?;
            text.push_str(" (id ")?;
            text.push_str(id.as_str())?;
            Ok(text)
        }
        _ => String::from_str(alloc, "no mapping answers: status "),
    }
}

/// The rest of the first line, as `, name "todo") answers: status 200`, and the mappings.
fn rest_of(
    alloc: Global,
    explanation: &Explanation,
    is_coloured: bool,
) -> Result<String, AllocError> {
    let mut text = String::new(alloc);
    if let ServeAnswer::Stub(captured) = &explanation.answer {
        if let Some(name) = &captured.mapping.spec.spec().name {
            push_part(&mut text, ", name ", quoted(alloc, name.as_str())?.as_str())?;
        }
        text.push_str(") answers: status ")?;
    }
    let mut digits = Buffer::new();
    push_part(&mut text, digits.format(explanation.status), "\n")?;
    for explained in &explanation.mappings {
        push_mapping(alloc, &mut text, explained, is_coloured)?;
    }
    Ok(text)
}

fn push_number(text: &mut String, explained: &Explained) -> Result<(), AllocError> {
    let mut digits = Buffer::new();
    push_part(text, "mapping ", digits.format(explained.number))
}

fn push_part(text: &mut String, one: &str, other: &str) -> Result<(), AllocError> {
    text.push_str(one)?;
    text.push_str(other)
}

/// As `mapping 2 (name "todo"): chosen`; below a mapping that doesn't match, a line for each difference.
fn push_mapping(
    alloc: Global,
    text: &mut String,
    explained: &Explained,
    is_coloured: bool,
) -> Result<(), AllocError> {
    push_number(text, explained)?;
    let spec = explained.mapping.spec.spec();
    if let Some(name) = &spec.name {
        push_part(text, " (name ", quoted(alloc, name.as_str())?.as_str())?;
        text.push_str(")")?;
    } else if spec.id.is_some() {
        push_part(
            text,
            " (id ",
            explained.mapping.id.hyphenated(alloc)?.as_str(),
        )?;
        text.push_str(")")?;
    }
    text.push_str(": ")?;
    push_verdict(text, explained, is_coloured)?;
    for difference in &explained.differences {
        let line = line_of(alloc, &difference.condition, &difference.found)?;
        push_part(text, "\n  ", line.as_str())?;
    }
    text.push_str("\n")
}

fn push_verdict(
    text: &mut String,
    explained: &Explained,
    is_coloured: bool,
) -> Result<(), AllocError> {
    if explained.is_chosen {
        push_coloured(text, GREEN, "chosen", is_coloured)
    } else if explained.differences.is_empty() {
        push_coloured(text, YELLOW, "matches, after the chosen one", is_coloured)
    } else {
        push_coloured(text, RED, "doesn't match", is_coloured)
    }
}

fn push_coloured(
    text: &mut String,
    colour: &str,
    said: &str,
    is_coloured: bool,
) -> Result<(), AllocError> {
    if !is_coloured {
        return text.push_str(said);
    }
    push_part(text, colour, said)?;
    text.push_str(PLAIN)
}
