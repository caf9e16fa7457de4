//! The options of `answer` and `explain`: anywhere before a `--`, each with the argument that follows it as its value,
//! or with what stands after a `=` in its own.
ghost use Rattle.std.specs.Prelude.{◌≡◌, ◌++◌, ◌∷◌, [], ℕ, List, IfOk, OnOk, map, string_bytes, None, codes, false};
ghost use Rattle.std.specs.Prelude.{option_copied, option_map};
ghost use Rattle.std.specs.Str.{bytes_eq};
ghost use Rattle.clap.specs.Lexer.{name_and_value};
ghost use Rattle.mock_program.specs.Options.{as_option, as_word, given_of, is_option, is_switch, joined, options_in};
ghost use Rattle.mock_program.specs.Options.{options_of, takes_options, words_in, words_of};

use std::alloc::{AllocError, Global};

/// An option: its name, and its value, which is empty where it takes none.
#[derive(Clone, Copy)]
pub(crate) struct GivenOption<'a> {
    pub(crate) name: &'a str,
    pub(crate) value: &'a str,
}

/// The arguments without the options of their command, and these.
#[derive(Drop)]
pub(crate) struct Split<'a> {
    pub(crate) words: Vec<&'a str>,
    pub(crate) options: Vec<GivenOption<'a>>,
}

pub(crate) fn split_arguments<'a>(
    alloc: Global,
    arguments: &'a [String],
) -> Result<Split<'a>, AllocError>
    ensures words { IfOk result (λ split. map (λ word. word.now) split.words.items
        ≡ words_of (map string_bytes arguments.now)) }
    ensures options { IfOk result (λ split. map given_of split.options.items
        ≡ options_of (map string_bytes arguments.now)) }
{
    let mut split = Split {
        words: Vec::new(alloc),
        options: Vec::new(alloc),
    };
    match arguments {
        [program, command, rest @ ..] if takes_options(command.as_str()) => {
            split.words.push(program.as_str())?;
            split.words.push(command.as_str())?;
            split_rest(&mut split, rest)?;
        }
        _ => push_words(&mut split.words, arguments)?,
    }
    Ok(split)
}

fn takes_options(command: &str) -> bool
    ensures { result ≡ takes_options command.now }
{
    command == "answer" || command == "explain"
}

fn push_words<'a>(words: &mut Vec<&'a str>, arguments: &'a [String]) -> Result<(), AllocError>
    ensures { OnOk result (map (λ word. word.now) words.new.items
        ≡ map (λ word. word.now) words.old.items ++ map string_bytes arguments.now) }
{
    for argument in arguments {
        words.push(argument.as_str())?;
    }
    Ok(())
}

fn split_rest<'a>(split: &mut Split<'a>, arguments: &'a [String]) -> Result<(), AllocError>
    ensures words { OnOk result (map (λ word. word.now) split.new.words.items
        ≡ map (λ word. word.now) split.old.words.items ++ words_in None (map string_bytes arguments.now)) }
    ensures options { OnOk result (map given_of split.new.options.items
        ≡ map given_of split.old.options.items ++ options_in None (map string_bytes arguments.now)) }
{
    // The name of an option whose value is next.
    let mut name = None;
    let mut rest = arguments;
    while let [argument, tail @ ..] = rest {
        let argument = argument.as_str();
        if name.is_none() && argument == "--" {
            return push_words(&mut split.words, rest);
        }
        name = split_next(split, name, argument)?;
        rest = tail;
    }
    match name {
        Some(alone) => push_word(split, alone),
        None => Ok(()),
    }
}

/// Takes the next argument, and gives the name of an option whose value comes after it.
fn split_next<'a>(
    split: &mut Split<'a>,
    name: Option<&'a str>,
    argument: &'a str,
) -> Result<Option<&'a str>, AllocError>
    requires { option_copied name ≡ None → bytes_eq argument.now (codes "--") ≡ false }
    ensures words { IfOk result (λ next. (rest : List (List ℕ))
        → map (λ word. word.now) split.new.words.items ++ words_in (option_copied next) rest
        ≡ map (λ word. word.now) split.old.words.items ++ words_in (option_copied name.entry) (argument.now ∷ rest)) }
    ensures options { IfOk result (λ next. (rest : List (List ℕ))
        → map given_of split.new.options.items ++ options_in (option_copied next) rest
        ≡ map given_of split.old.options.items ++ options_in (option_copied name.entry) (argument.now ∷ rest)) }
{
    if let Some(known) = name {
        push_option(split, known, argument)?;
        return Ok(None);
    }
    if is_switch(argument) {
        push_option(split, argument, "")?;
        return Ok(None);
    }
    if is_option(argument) {
        return Ok(Some(argument));
    }
    take_joined(split, argument)?;
    Ok(None)
}

// Takes an argument that has an option with its value, or else is no option.
fn take_joined<'a>(split: &mut Split<'a>, argument: &'a str) -> Result<(), AllocError>
    ensures words { OnOk result (map (λ word. word.now) split.new.words.items
        ≡ map (λ word. word.now) split.old.words.items ++ as_word (joined argument.now) argument.now) }
    ensures options { OnOk result (map given_of split.new.options.items
        ≡ map given_of split.old.options.items ++ as_option (joined argument.now)) }
{
    match joined(argument) {
        Some(option) => push_option(split, option.name, option.value),
        None => push_word(split, argument),
    }
}

/// The option and its value, of an argument that has both.
#[tactic(auto, unfolding(crate::specs::Options::joined))]
fn joined(argument: &str) -> Option<GivenOption<'_>>
    ensures { option_map given_of result ≡ joined argument.now }
{
    match split_value(argument) {
        (name, Some(value)) if is_option(name) => Some(GivenOption { name, value }),
        _ => None,
    }
}

// What stands before the first `=`, and what stands after it, if there is one.
fn split_value(argument: &str) -> (&str, Option<&str>)
    ensures { (result.0.now, option_map (λ value. value.now) result.1) ≡ name_and_value argument.now }
{
    match argument.split_once('=') {
        Some((name, value)) => (name, Some(value)),
        None => (argument, None),
    }
}

fn push_word<'a>(split: &mut Split<'a>, word: &'a str) -> Result<(), AllocError>
    ensures words { OnOk result (map (λ word. word.now) split.new.words.items
        ≡ map (λ word. word.now) split.old.words.items ++ word.now ∷ []) }
    ensures options { OnOk result (split.new.options ≡ split.old.options) }
{
    split.words.push(word)?;
    Ok(())
}

fn push_option<'a>(split: &mut Split<'a>, name: &'a str, value: &'a str) -> Result<(), AllocError>
    ensures words { OnOk result (split.new.words ≡ split.old.words) }
    ensures options { OnOk result (map given_of split.new.options.items
        ≡ map given_of split.old.options.items ++ (name.now, value.now) ∷ []) }
{
    split.options.push(GivenOption { name, value })?;
    Ok(())
}

/// An option without a value.
fn is_switch(argument: &str) -> bool
    ensures { result ≡ is_switch argument.now }
{
    argument == "--json"
}

fn is_option(argument: &str) -> bool
    ensures { result ≡ is_option argument.now }
{
    argument == "--header"
        || argument == "--body"
        || argument == "--body-file"
        || argument == "--state"
}
