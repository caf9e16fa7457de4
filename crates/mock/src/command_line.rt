//! The command line of the program: `mock serve`, `mock record` and `mock save` are done here, each other command by
//! `mock_program`.
ghost use Rattle.std.specs.Prelude.{◌≡◌, ◌⊎◌, ◌≤◌, map, string_bytes};
ghost use Rattle.command_output.specs.Output.{Followed, WritesOneStream};
ghost use Rattle.mock_program.specs.CommandLine.{AreInvalid, Asked, AsksFor, CallsForHelp};
ghost use Rattle.mock_program.specs.Commands.{Does};
ghost use Rattle.mock_program.specs.Options.{options_of, words_of};
ghost use Rattle.template_tree.specs.declared.escape.Escape.{Escape};
ghost use Rattle.mock.specs.CommandLine.{AskForOwn, AskToHelp, is_own};
ghost use Rattle.mock.specs.Inner.Arguments.{ask_for_own, ask_to_help};

use crate::arguments::{ServeArguments, ServerCall, call_of};
use crate::page::page_in;
use crate::record::record as record_until;
use crate::serve::{Plan, serve};
use crate::system::System;
use crate::watch::Watch;
use clap::Error;
use command_output::error::CommandError;
use command_output::files::FileReader;
use command_output::output::put_all;
use command_output::status::{FAILURE, INVALID_ARGUMENTS};
use error_code::error_code::ErrorCode;
use mapping_files::file_writer::FileWriter;
use mapping_files::save::{out_of_memory, save};
use mock_program::command_line::write_parser_message;
use std::alloc::{AllocError, AllocGlobal, Global};
use std::io::{Read, Write};
use std::net::{Net, TcpListener, TcpStream};
use std::random::RandomSource;
use std::sync::Wait;
use std::thread::Threads;
use std::time::Clock;

/// Runs the command that the arguments name, the first of them being the program's name, and gives the exit status:
/// 0; 1 for an error or output that can't be written; 2 for invalid arguments. The text of `clap` for invalid
/// arguments goes to `err`, its help to `out`. What a server tells of its requests goes to `log`, by a thread of its
/// own. A server may end when `input` does.
pub fn run<R, O, E, W, I>(
    rt: R,
    arguments: &[String],
    out: &mut O,
    err: &mut E,
    log: W,
    input: I,
    is_coloured: bool,
) -> u8
where
    R: Threads
        + Wait
        + Net<Listener = TcpListener, Stream = TcpStream>
        + Clock
        + RandomSource
        + AllocGlobal
        + FileReader
        + FileWriter
        + Copy
        + Drop
        + Send
        + Sync
        + 'static,
    O: Write,
    E: Write,
    W: Write + Drop + Send + 'static,
    I: Read + Drop + Send + 'static,
    // Arguments that ask for a command of `mock_program` do what that command does, each argument taken as it is.
    ensures command { (escape : Escape) (asked : Asked)
        → AsksFor (words_of (map string_bytes arguments.now)) escape asked
        → Does O.contents E.contents (R.listed rt) (R.content rt) escape asked
        (options_of (map string_bytes arguments.now)) out.old out.new err.old err.new result }

    // Help is no mistake, and invalid arguments are one. Where the text can't be made or written, the status is 1.
    ensures help { CallsForHelp (words_of (map string_bytes arguments.now)) → (result ≡ 0) ⊎ (result ≡ 1) }
    ensures invalid { AreInvalid (words_of (map string_bytes arguments.now))
        → ¬ (AskForOwn (map string_bytes arguments.now)) → ¬ (AskToHelp (map string_bytes arguments.now))
        → (result ≡ 2) ⊎ (result ≡ 1) }
    ensures range { result ≤ 2 }

    // Apart from lines on standard error that explain or warn, the other commands write to one of both streams.
    ensures streams { ¬ (AskForOwn (map string_bytes arguments.now))
        → Followed E.contents (λ e. WritesOneStream out.old out.new err.old e result) err.new }
{
    if ask_for_own(arguments) {
        run_own(rt, arguments, out, err, log, input)
    } else if ask_to_help(arguments) {
        run_help(rt, arguments, out, err)
    } else {
        mock_program::command_line::run(rt.alloc(), &rt, arguments, out, err, is_coloured)
    }
}

fn ask_for_own(arguments: &[String]) -> bool
    ensures { result ≡ ask_for_own (map string_bytes arguments.now) }
{
    matches!(arguments, [_program, command, ..] if is_own(command.as_str()))
}

fn is_own(command: &str) -> bool
    ensures { result ≡ is_own command.now }
{
    command == "serve" || (command == "record" || command == "save")
}

fn ask_to_help(arguments: &[String]) -> bool
    ensures { result ≡ ask_to_help (map string_bytes arguments.now) }
{
    matches!(arguments, [_program, command] | [_program, command, _] if command.as_str() == "help")
}

// The help of the program, or of the command that is named: what its flag for help writes.
#[tactic(auto, using(command_output::proofs::PartsWritten::alone))]
fn run_help<R: System, O: Write, E: Write>(
    rt: R,
    arguments: &[String],
    out: &mut O,
    err: &mut E,
) -> u8
    ensures range { result ≤ 2 }
    ensures streams { Followed E.contents (λ e. WritesOneStream out.old out.new err.old e result) err.new }
{
    match help_arguments(rt.alloc(), arguments) {
        Ok(words) => if ask_for_own(words.as_slice()) {
            own_help(rt.alloc(), words.as_slice(), out, err)
        } else {
            mock_program::command_line::run(rt.alloc(), &rt, words.as_slice(), out, err, false)
        },
        Err(_error) => {
            CommandError::from(ErrorCode::OutOfMemory).report(err);
            FAILURE
        }
    }
}

#[tactic(auto, using(command_output::proofs::PartsWritten::alone))]
fn own_help<O: Write, E: Write>(alloc: Global, arguments: &[String], out: &mut O, err: &mut E) -> u8
    ensures range { result ≤ 2 }
    ensures streams { Followed E.contents (λ e. WritesOneStream out.old out.new err.old e result) err.new }
{
    match own_message(alloc, arguments) {
        Some(error) => write_parser_message(&error, out, err),
        None => FAILURE,
    }
}

// The text of `clap`, where it gives one in place of a call.
fn own_message(alloc: Global, arguments: &[String]) -> Option<Error> {
    match words_of(alloc, arguments) {
        Ok(words) => match call_of(alloc, words.as_slice()) {
            Ok(_call) => None,
            Err(error) => Some(error),
        },
        Err(_error) => None,
    }
}

// `PROGRAM --help`, or `PROGRAM COMMAND --help`.
fn help_arguments(alloc: Global, arguments: &[String]) -> Result<Vec<String>, AllocError> {
    let mut words = Vec::new(alloc);
    words.push(String::from_str(alloc, "mock")?)?;
    if let [_program, _help, command] = arguments {
        words.push(command.clone()?)?;
    }
    words.push(String::from_str(alloc, "--help")?)?;
    Ok(words)
}

fn run_own<R, O, E, W, I>(
    rt: R,
    arguments: &[String],
    out: &mut O,
    err: &mut E,
    log: W,
    input: I,
) -> u8
where
    R: System,
    O: Write,
    E: Write,
    W: Write + Drop + Send + 'static,
    I: Read + Drop + Send + 'static,
    ensures { result ≤ 2 }
{
    match words_of(rt.alloc(), arguments) {
        Ok(words) => run_words(rt, words.as_slice(), out, err, log, input),
        Err(_error) => out_of_memory(err),
    }
}

fn run_words<R, O, E, W, I>(rt: R, words: &[&str], out: &mut O, err: &mut E, log: W, input: I) -> u8
where
    R: System,
    O: Write,
    E: Write,
    W: Write + Drop + Send + 'static,
    I: Read + Drop + Send + 'static,
    ensures { result ≤ 2 }
{
    match call_of(rt.alloc(), words) {
        Ok(Some(call)) => run_call(rt, call, out, err, log, input),
        Ok(None) => FAILURE,
        Err(error) => write_parser_message(&error, out, err),
    }
}

fn run_call<R, O, E, W, I>(
    rt: R,
    call: ServerCall<'_>,
    out: &mut O,
    err: &mut E,
    log: W,
    input: I,
) -> u8
where
    R: System,
    O: Write,
    E: Write,
    W: Write + Drop + Send + 'static,
    I: Read + Drop + Send + 'static,
    ensures { result ≤ 2 }
{
    match call {
        ServerCall::Serve(given) => serve_until(rt, given, out, err, log, input),
        ServerCall::Record(given, record) => record_until(rt, given, &record, out, err, log, input),
        ServerCall::Save { server, file } => save(rt, server, file, out, err),
        ServerCall::BadAddress(text) => report_address(text, err),
    }
}

fn serve_until<R, O, E, W, I>(
    rt: R,
    given: ServeArguments<'_>,
    out: &mut O,
    err: &mut E,
    log: W,
    input: I,
) -> u8
where
    R: System,
    O: Write,
    E: Write,
    W: Write + Drop + Send + 'static,
    I: Read + Drop + Send + 'static,
    ensures { result ≤ 2 }
{
    match page_in(rt.alloc(), &rt, given.page, err) {
        Ok(page) => {
            let plan = Plan {
                recording: None,
                page,
                watch: Watch::of_server(input, given.ends_with_input),
            };
            serve(rt, given, plan, out, err, log)
        }
        Err(status) => status,
    }
}

// As `clap` says it of other values.
fn report_address<E: Write>(text: &str, err: &mut E) -> u8
    ensures { result ≤ 2 }
{
    let texts = [
        "error: invalid value '",
        text,
        "' for '--bind-address <ADDRESS>': it is no IP address\n\nFor more information, try '--help'.\n",
    ];
    match put_all(err, texts.as_slice()) {
        Ok(()) => INVALID_ARGUMENTS,
        Err(_error) => FAILURE,
    }
}

// The words that the parser is given: the program's name as it is known, and the arguments after it.
fn words_of<'a>(alloc: Global, arguments: &'a [String]) -> Result<Vec<&'a str>, AllocError> {
    let mut words = Vec::with_capacity(alloc, arguments.len().saturating_add(1))?;
    words.push("mock")?;
    if let [_program, given @ ..] = arguments {
        for argument in given {
            words.push(argument.as_str())?;
        }
    }
    Ok(words)
}
