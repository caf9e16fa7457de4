//! The command line: the command that the arguments name, help, and what is reported of invalid arguments.
ghost use Rattle.std.specs.Prelude.{◌≡◌, ◌≢◌, ◌⊎◌, false, map, string_bytes, true};
ghost use Rattle.clap.specs.Words.{kind_of};
ghost use Rattle.clap.specs.declared.error.kind.ErrorKind.{ErrorKind};
ghost use Rattle.mapping_commands.specs.declared.explain.Form.TheVariants.{Json};
ghost use Rattle.mock_program.specs.CommandLine.{AreInvalid, Asked, AsksFor, CallsForHelp, answer, explain};
ghost use Rattle.mock_program.specs.Commands.{Does};
ghost use Rattle.mock_program.specs.Inner.Parser.{IsHelp, asked_of};
ghost use Rattle.mock_program.specs.Options.{given_of, options_of, words_of};
ghost use Rattle.command_output.specs.Lines.{error_line, out_of_memory};
ghost use Rattle.command_output.specs.Output.{AppendsFront, Followed, WritesOneStream};
ghost use Rattle.template_tree.specs.declared.escape.Escape.{Escape};

use crate::arguments::{escape_asked, parser_arguments};
use crate::options::{GivenOption, Split, split_arguments};
use crate::parser::{CommandCall, RequestArguments, call_of};
use crate::render::render_to;
use crate::request_options::request_options;
use clap::Error;
use clap::error::ErrorKind;
use command_output::error::CommandError;
use command_output::files::FileReader;
use command_output::status::{FAILURE, INVALID_ARGUMENTS, SUCCESS};
use error_code::error_code::ErrorCode;
use mapping_commands::answer::answer_file;
use mapping_commands::check::check_file;
use mapping_commands::explain::{Form, Question, explain_file};
use mapping_commands::sent::SentRequest;
use std::alloc::Global;
use std::io::Write;
use template_tree::escape::Escape;

/// Runs the command that the arguments name, the first of them being the program's name, and gives the exit status:
/// 0; 1 for an error or output that can't be written; 2 for invalid arguments. The text of `clap` for invalid
/// arguments goes to `err`, its help to `out`.
pub fn run<F: FileReader, O: Write, E: Write>(
    alloc: Global,
    files: &F,
    arguments: &[String],
    out: &mut O,
    err: &mut E,
    is_coloured: bool,
) -> u8
    // Arguments that ask for a command do what that command does, each argument taken as it is.
    ensures command { (escape : Escape) (asked : Asked)
        → AsksFor (words_of (map string_bytes arguments.now)) escape asked
        → Does O.contents E.contents (F.listed files.now) (F.content files.now) escape asked
        (options_of (map string_bytes arguments.now)) out.old out.new err.old err.new result }

    // Help is no mistake, and invalid arguments are one. Where the text can't be made or written, the status is 1.
    ensures help { CallsForHelp (words_of (map string_bytes arguments.now)) → (result ≡ 0) ⊎ (result ≡ 1) }
    ensures invalid { AreInvalid (words_of (map string_bytes arguments.now)) → (result ≡ 2) ⊎ (result ≡ 1) }
    // Apart from lines on standard error that explain or warn, a command writes to one of both streams.
    ensures streams { Followed E.contents (λ e. WritesOneStream out.old out.new err.old e result) err.new }
{
    let Ok(split) = split_arguments(alloc, arguments) else {
        CommandError::from(ErrorCode::OutOfMemory).report(err);
        return FAILURE;
    };
    run_words(alloc, files, &split, out, err, is_coloured)
}

fn run_words<F: FileReader, O: Write, E: Write>(
    alloc: Global,
    files: &F,
    given: &Split<'_>,
    out: &mut O,
    err: &mut E,
    is_coloured: bool,
) -> u8
    ensures command { (escape : Escape) (asked : Asked)
        → AsksFor (map (λ word. word.now) given.now.words.items) escape asked
        → Does O.contents E.contents (F.listed files.now) (F.content files.now) escape asked
        (map given_of given.now.options.items) out.old out.new err.old err.new result }
    ensures help { CallsForHelp (map (λ word. word.now) given.now.words.items) → (result ≡ 0) ⊎ (result ≡ 1) }
    ensures invalid { AreInvalid (map (λ word. word.now) given.now.words.items) → (result ≡ 2) ⊎ (result ≡ 1) }
    ensures streams { Followed E.contents (λ e. WritesOneStream out.old out.new err.old e result) err.new }
{
    let words = given.words.as_slice();
    let escape = escape_asked(words);
    let Ok(arguments) = parser_arguments(alloc, words) else {
        CommandError::from(ErrorCode::OutOfMemory).report(err);
        return FAILURE;
    };
    match call_of(alloc, arguments.as_slice()) {
        Ok(Some(call)) => {
            let options = given.options.as_slice();
            let settings = Settings {
                escape,
                options,
                is_coloured,
            };
            run_call(alloc, files, call, settings, out, err)
        }
        Ok(None) => FAILURE,
        Err(error) => write_parser_message(&error, out, err),
    }
}

// What a command is given besides its arguments.
#[derive(Clone, Copy)]
struct Settings<'s, 'a> {
    // How the prints of templates are escaped.
    escape: Escape,
    // The options of `answer` and `explain`.
    options: &'s [GivenOption<'a>],
    // Whether the text of `explain` is coloured.
    is_coloured: bool,
}

fn run_call<F: FileReader, O: Write, E: Write>(
    alloc: Global,
    files: &F,
    call: CommandCall<'_>,
    settings: Settings<'_, '_>,
    out: &mut O,
    err: &mut E,
) -> u8
    ensures { Does O.contents E.contents (F.listed files.now) (F.content files.now) settings.entry.escape
        (asked_of call.entry) (map given_of settings.entry.options.now) out.old out.new err.old err.new result }
{
    match call {
        CommandCall::Render {
            template,
            method,
            target,
        } => render_to(alloc, template, method, target, out, err, settings.escape),
        CommandCall::Check { file } => check_file(alloc, files, file, out, err, settings.escape),
        CommandCall::Answer(asked) => run_asked(alloc, files, asked, false, settings, out, err),
        CommandCall::Explain(asked) => run_asked(alloc, files, asked, true, settings, out, err),
    }
}

// `explain`, or else `answer`: what the options mean, and the request that is sent, are the same of both.
fn run_asked<F: FileReader, O: Write, E: Write>(
    alloc: Global,
    files: &F,
    asked: RequestArguments<'_, '_, '_>,
    is_explain: bool,
    settings: Settings<'_, '_>,
    out: &mut O,
    err: &mut E,
) -> u8
    ensures answered { is_explain ≡ false
        → Does O.contents E.contents (F.listed files.now) (F.content files.now) settings.entry.escape
        (answer asked.entry.file.now asked.entry.method.now asked.entry.target.now)
        (map given_of settings.entry.options.now) out.old out.new err.old err.new result }
    ensures explained { is_explain ≡ true
        → Does O.contents E.contents (F.listed files.now) (F.content files.now) settings.entry.escape
        (explain asked.entry.file.now asked.entry.method.now asked.entry.target.now)
        (map given_of settings.entry.options.now) out.old out.new err.old err.new result }
{
    let RequestArguments {
        file,
        method,
        target,
    } = asked;
    match request_options(alloc, files, settings.options, is_explain) {
        Ok(given) => {
            let request = SentRequest {
                method,
                target,
                headers: given.headers.as_slice(),
                body: given.body.as_slice(),
            };
            if is_explain {
                let question = Question {
                    request,
                    states: given.states.as_slice(),
                    form: form_of(given.is_json, settings.is_coloured),
                };
                explain_file(alloc, files, file, question, out, err, settings.escape)
            } else {
                answer_file(alloc, files, file, request, out, err, settings.escape)
            }
        }
        Err(error) => error.report(alloc, err),
    }
}

fn form_of(is_json: bool, is_coloured: bool) -> Form
    ensures { is_json ≡ false → result ≢ Json }
{
    match (is_json, is_coloured) {
        (true, _) => Form::Json,
        (false, true) => Form::Coloured,
        (false, false) => Form::Text,
    }
}

/// Writes the text of `clap` for help or invalid arguments, and gives the exit status.
pub fn write_parser_message<O: Write, E: Write>(error: &Error, out: &mut O, err: &mut E) -> u8
    ensures no_memory { kind_of error.now ≡ ErrorKind.OutOfMemory
        → (result ≡ 1) × AppendsFront (E.contents err.old) (E.contents err.new) (error_line out_of_memory)
        × (out.new ≡ out.old) }
    ensures help { IsHelp (kind_of error.now) → (result ≡ 0) ⊎ (result ≡ 1) }
    ensures mistake { ¬ (IsHelp (kind_of error.now)) → (result ≡ 2) ⊎ (result ≡ 1) }
    ensures streams { WritesOneStream out.old out.new err.old err.new result }
{
    if error.kind() == ErrorKind::OutOfMemory {
        CommandError::from(ErrorCode::OutOfMemory).report(err);
        return FAILURE;
    }
    let (written, status) = if error.use_stderr() {
        (write!(err, "{error}"), INVALID_ARGUMENTS)
    } else {
        (write!(out, "{error}"), SUCCESS)
    };
    if written.is_ok() { status } else { FAILURE }
}
