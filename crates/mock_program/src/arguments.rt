//! The arguments of the command line: those that the parser is given for them, and what is reported where the system
//! gives none.
ghost use Rattle.std.specs.Prelude.{◌≡◌, ◌≢◌, ◌⊎◌, [], ◌∷◌, ◌++◌, IfOk, OnOk, map};
ghost use Rattle.std.specs.IoError.{error_kind};
ghost use Rattle.std.specs.Io.KnownBytes.{Appends};
ghost use Rattle.mock_program.specs.Inner.Arguments.{delimiter, escape_asked, escape_before, is_flag, needs_delimiter};
ghost use Rattle.mock_program.specs.Inner.Arguments.{parser_arguments, unflagged};
ghost use Rattle.command_output.specs.Lines.{error_line, not_utf8_line, out_of_memory};
ghost use Rattle.command_output.specs.Output.{AppendsFront, AppendsPart};

use command_output::error::CommandError;
use command_output::output::put;
use command_output::status::{FAILURE, INVALID_ARGUMENTS};
use error_code::error_code::ErrorCode;
use std::alloc::{AllocError, Global};
use std::io;
use std::io::{ErrorKind, Write};
use template_tree::escape::Escape;

/// Reports why the system gives no arguments, and gives the exit status: 2 for arguments that aren't UTF-8, 1 where
/// memory is out or the report can't be written to the end.
pub fn report_unreadable<E: Write>(error: &io::Error, err: &mut E) -> u8
    ensures no_memory { error_kind error.now ≡ ErrorKind.OutOfMemory
        → (result ≡ 1) × AppendsFront (E.contents err.old) (E.contents err.new) (error_line out_of_memory) }
    ensures not_utf8 { error_kind error.now ≢ ErrorKind.OutOfMemory
        → ((result ≡ 2) × Appends (E.contents err.old) (E.contents err.new) not_utf8_line)
        ⊎ ((result ≡ 1) × AppendsPart (E.contents err.old) (E.contents err.new) not_utf8_line) }
{
    if let ErrorKind::OutOfMemory = error.kind() {
        CommandError::from(ErrorCode::OutOfMemory).report(err);
        return FAILURE;
    }
    match put(err, "error: the arguments aren't UTF-8\n".as_bytes()) {
        Ok(()) => INVALID_ARGUMENTS,
        Err(_error) => FAILURE,
    }
}

/// The arguments without the flag for escapes, and with a `--` before the first that isn't a flag of its command: none
/// after it is read as a flag.
pub(crate) fn parser_arguments<'a>(
    alloc: Global,
    arguments: &[&'a str],
) -> Result<Vec<&'a str>, AllocError>
    ensures { IfOk result (λ made. map (λ argument. argument.now) made.items
        ≡ parser_arguments (map (λ argument. argument.now) arguments.now)) }
{
    let mut made = Vec::new(alloc);
    made.push("mock")?;
    if let [_, command, rest @ ..] = arguments {
        made.push(*command)?;
        push_delimited(&mut made, unflagged(rest))?;
    }
    Ok(made)
}

/// Whether the flag for escapes stands before the arguments of the command.
pub(crate) fn escape_asked(arguments: &[&str]) -> Escape
    ensures { result ≡ escape_asked (map (λ argument. argument.now) arguments.now) }
{
    match arguments {
        [_, _, first, ..] => escape_of(*first),
        _ => Escape::Off,
    }
}

fn escape_of(argument: &str) -> Escape
    ensures { result ≡ escape_before (argument.now ∷ []) }
{
    if argument == "--html-escape" {
        Escape::Html
    } else {
        Escape::Off
    }
}

fn unflagged<'a, 's>(arguments: &'s [&'a str]) -> &'s [&'a str]
    ensures { map (λ argument. argument.now) result.now ≡ unflagged (map (λ argument. argument.now) arguments.now) }
{
    if let [first, rest @ ..] = arguments {
        if *first == "--html-escape" {
            return rest;
        }
    }
    arguments
}

fn push_delimited<'a>(made: &mut Vec<&'a str>, arguments: &[&'a str]) -> Result<(), AllocError>
    ensures { OnOk result (map (λ argument. argument.now) made.new.items
        ≡ map (λ argument. argument.now) made.old.items
        ++ (delimiter (map (λ argument. argument.now) arguments.now)
        ++ map (λ argument. argument.now) arguments.now)) }
{
    if needs_delimiter(arguments) {
        made.push("--")?;
    }
    for argument in arguments {
        made.push(*argument)?;
    }
    Ok(())
}

fn needs_delimiter(arguments: &[&str]) -> bool
    ensures { result ≡ needs_delimiter (map (λ argument. argument.now) arguments.now) }
{
    match arguments {
        [] => false,
        [first, ..] => !is_flag(*first),
    }
}

fn is_flag(argument: &str) -> bool
    ensures { result ≡ is_flag argument.now }
{
    argument == "-h" || argument == "--help" || argument == "--" || argument == "--html-escape"
}
