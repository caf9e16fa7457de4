//! The slots of the machine's stack. They borrow from the request's data and from the code, and own the texts that
//! were made for them. The text of a value is made where it is printed, escaped, or read by a helper, and so is one
//! whose letters are put in one case.
ghost use Rattle.std.specs.Prelude.{◌≡◌, true, [], ◌∷◌, map, Some, IfOk, string_bytes};
ghost use Rattle.std.specs.Char.{to_ascii_uppercase, to_ascii_lowercase};
ghost use Rattle.helper_set.specs.Escape.{html_escaped};
ghost use Rattle.helper_set.specs.Texts.{trimmed};
ghost use Rattle.helper_set.specs.Helpers.{applied};
ghost use Rattle.helper_set.specs.Values.{a_text};
ghost use Rattle.template_machine.specs.Inner.Slots.{text_view};
ghost use Rattle.template_machine.specs.Inner.Changes.{changes_text};

use crate::escape::{escaped, is_plain};
use crate::held::printed;
use crate::value::Value;
use helper_set::helper::Helper;
use std::alloc::{AllocError, Global};
use std::borrow::CowStr;
use template_code::code_text::CodeText;

/// A text.
#[derive(Drop)]
pub enum Text<'a> {
    /// A text of the code.
    Literal(&'a CodeText),
    /// A text of the request's data or of the code.
    Borrowed(&'a str),
    /// Such a text with its ASCII letters in upper case.
    Upper(&'a str),
    /// Such a text with its ASCII letters in lower case.
    Lower(&'a str),
    /// The text that the value prints as.
    Rendered(Value<'a>),
    /// A text that was made.
    Made(String),
}

/// A slot of the stack.
#[derive(Drop)]
pub enum Slot<'a> {
    Value(Value<'a>),
    Text(Text<'a>),
}

impl<'a> Text<'a> {
    ghost use Rattle.std.specs.Prelude.{◌++◌, OnOk};

    /// Appends it.
    pub fn write_into(self, alloc: Global, out: &mut String) -> Result<(), AllocError>
        ensures { OnOk result (string_bytes out.new ≡ string_bytes out.old ++ text_view self.entry) }
    {
        match self {
            Text::Literal(text) => out.push_str(text.as_str()),
            Text::Borrowed(text) => out.push_str(text),
            Text::Upper(text) => out.push_str(text.to_ascii_uppercase(alloc)?.as_str()),
            Text::Lower(text) => out.push_str(text.to_ascii_lowercase(alloc)?.as_str()),
            Text::Rendered(value) => value.print_into(alloc, out),
            Text::Made(text) => out.push_str(text.as_str()),
        }
    }

    /// The same with the special characters of HTML escaped. Takes memory only for a text that has such characters, or
    /// that has to be printed first.
    pub fn escaped(self, alloc: Global) -> Result<Text<'a>, AllocError>
        ensures { IfOk result (λ made. text_view made ≡ html_escaped (text_view self.entry)) }
    {
        match self {
            Text::Literal(text) => escaped_part(alloc, text.as_str()),
            Text::Borrowed(text) => escaped_part(alloc, text),
            Text::Upper(text) => escaped_whole(alloc, text.to_ascii_uppercase(alloc)?),
            Text::Lower(text) => escaped_whole(alloc, text.to_ascii_lowercase(alloc)?),
            Text::Rendered(value) => match printed(alloc, value)? {
                CowStr::Borrowed(text) => escaped_part(alloc, text),
                CowStr::Owned(text) => escaped_whole(alloc, text),
            },
            Text::Made(text) => escaped_whole(alloc, text),
        }
    }

    /// What a helper makes of it that changes a text alone. A text of the request's data or of the code stays borrowed,
    /// and one that was made is changed in place, but where it is trimmed.
    pub fn changed(self, alloc: Global, helper: Helper) -> Result<Text<'a>, AllocError>
        requires { changes_text helper ≡ true }
        ensures { IfOk result (λ made.
            applied helper (a_text (text_view self.entry) ∷ []) ≡ Some (a_text (text_view made))) }
    {
        match helper {
            Helper::Upper => self.upper_case(alloc),
            Helper::Lower => self.lower_case(alloc),
            Helper::Trim => self.without_blanks(alloc),
            _ => unreachable!(),
        }
    }

    #[tactic(auto, using(crate::proofs::Cases::upper_upper, crate::proofs::Cases::upper_lower))]
    fn upper_case(self, alloc: Global) -> Result<Text<'a>, AllocError>
        ensures { IfOk result (λ made. text_view made ≡ map to_ascii_uppercase (text_view self.entry)) }
    {
        match self {
            Text::Literal(text) => Ok(Text::Upper(text.as_str())),
            Text::Borrowed(text) | Text::Upper(text) | Text::Lower(text) => Ok(Text::Upper(text)),
            Text::Rendered(value) => match printed(alloc, value)? {
                CowStr::Borrowed(text) => Ok(Text::Upper(text)),
                CowStr::Owned(text) => Ok(Text::Made(uppercase(text))),
            },
            Text::Made(text) => Ok(Text::Made(uppercase(text))),
        }
    }

    #[tactic(auto, using(crate::proofs::Cases::lower_upper, crate::proofs::Cases::lower_lower))]
    fn lower_case(self, alloc: Global) -> Result<Text<'a>, AllocError>
        ensures { IfOk result (λ made. text_view made ≡ map to_ascii_lowercase (text_view self.entry)) }
    {
        match self {
            Text::Literal(text) => Ok(Text::Lower(text.as_str())),
            Text::Borrowed(text) | Text::Upper(text) | Text::Lower(text) => Ok(Text::Lower(text)),
            Text::Rendered(value) => match printed(alloc, value)? {
                CowStr::Borrowed(text) => Ok(Text::Lower(text)),
                CowStr::Owned(text) => Ok(Text::Made(lowercase(text))),
            },
            Text::Made(text) => Ok(Text::Made(lowercase(text))),
        }
    }

    #[tactic(auto, using(crate::proofs::Cases::upper_trimmed, crate::proofs::Cases::lower_trimmed))]
    fn without_blanks(self, alloc: Global) -> Result<Text<'a>, AllocError>
        ensures { IfOk result (λ made. text_view made ≡ trimmed (text_view self.entry)) }
    {
        match self {
            Text::Literal(text) => Ok(Text::Borrowed(trim(text.as_str()))),
            Text::Borrowed(text) => Ok(Text::Borrowed(trim(text))),
            Text::Upper(text) => Ok(Text::Upper(trim(text))),
            Text::Lower(text) => Ok(Text::Lower(trim(text))),
            Text::Rendered(value) => match printed(alloc, value)? {
                CowStr::Borrowed(text) => Ok(Text::Borrowed(trim(text))),
                CowStr::Owned(text) => trimmed_whole(alloc, text),
            },
            Text::Made(text) => trimmed_whole(alloc, text),
        }
    }
}

fn uppercase(text: String) -> String
    ensures { string_bytes result ≡ map to_ascii_uppercase (string_bytes text) }
{
    let mut made = text;
    made.make_ascii_uppercase();
    made
}

fn lowercase(text: String) -> String
    ensures { string_bytes result ≡ map to_ascii_lowercase (string_bytes text) }
{
    let mut made = text;
    made.make_ascii_lowercase();
    made
}

fn trim(text: &str) -> &str
    ensures { result.now ≡ trimmed text.now }
{
    text.trim_ascii()
}

fn trimmed_whole<'a>(alloc: Global, text: String) -> Result<Text<'a>, AllocError>
    ensures { IfOk result (λ made. text_view made ≡ trimmed (string_bytes text)) }
{
    Ok(Text::Made(String::from_str(alloc, trim(text.as_str()))?))
}

/// Whether the helper changes a text alone, by its letters or its ends.
pub fn changes_text(helper: Helper) -> bool
    ensures { result ≡ changes_text helper }
{
    matches!(helper, Helper::Upper | Helper::Lower | Helper::Trim)
}

fn escaped_part<'a>(alloc: Global, text: &'a str) -> Result<Text<'a>, AllocError>
    ensures { IfOk result (λ made. text_view made ≡ html_escaped text.now) }
{
    if is_plain(text) {
        return Ok(Text::Borrowed(text));
    }
    Ok(Text::Made(escaped(alloc, text)?))
}

fn escaped_whole<'a>(alloc: Global, text: String) -> Result<Text<'a>, AllocError>
    ensures { IfOk result (λ made. text_view made ≡ html_escaped (string_bytes text)) }
{
    if is_plain(text.as_str()) {
        return Ok(Text::Made(text));
    }
    Ok(Text::Made(escaped(alloc, text.as_str())?))
}

impl<'a> Slot<'a> {
    ghost use Rattle.helper_set.specs.Values.{truth_of};
    ghost use Rattle.template_machine.specs.Inner.Slots.{slot_view};

    /// Whether it counts as true.
    #[tactic(auto, using(crate::proofs::Cases::cased_prints))]
    pub fn is_true(&self) -> bool
        ensures { result ≡ truth_of (slot_view self.now) }
    {
        match self {
            Slot::Value(value) => value.is_true(),
            Slot::Text(Text::Literal(text)) => !text.as_str().is_empty(),
            Slot::Text(Text::Borrowed(text) | Text::Upper(text) | Text::Lower(text)) => {
                !text.is_empty()
            }
            Slot::Text(Text::Rendered(value)) => value.prints(),
            Slot::Text(Text::Made(text)) => !text.is_empty(),
        }
    }
}
