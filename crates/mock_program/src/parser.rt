//! The commands of the program, and what `clap` makes of its arguments.
ghost use Rattle.std.specs.Prelude.{◌≡◌, IfOk, IfErr, codes, false, map, option_map, true};
ghost use Rattle.clap.specs.Words.{FailsBy, app_of, first_of, found_of, kind_of, rows_of, rule_of};
ghost use Rattle.clap.specs.declared.builder.command.Command.TheViews.{out-Command as fields_of};
ghost use Rattle.clap.specs.declared.error.kind.ErrorKind.{ErrorKind};
ghost use Rattle.mock_program.specs.Inner.Parser.{answer_app, answer_in, answers_to, asked_by, asked_in};
ghost use Rattle.mock_program.specs.Inner.Parser.{asked_of, check_app, check_in, explain_app, explain_in, is_taken};
ghost use Rattle.mock_program.specs.Inner.Parser.{mock_app, render_app, render_in, request_in, required_rule, texts_of};
ghost use Rattle.mock_program.specs.Inner.Parser.{with_request};

use clap::{Arg, ArgMatches, Command, Error};
use std::alloc::{AllocError, Global};

// The help of the program: also with the commands whose arguments `mock` itself reads.
const MOCK_HELP: &str = "A stub server for HTTP, like WireMock, whose answers are proved

Usage: mock <COMMAND>

Commands:
  serve    Serves the mappings of a file, and takes admin calls
  record   Serves, forwards to another server, and writes its replies as mappings to a file
  save     Writes the mappings of a running server to a file
  check    Says which mappings of a file are accepted, and what their templates may cost
  answer   Prints what a server with the mappings of a file replies to one request
  explain  Says which mapping of a file answers a request, and why each other one doesn't
  render   Renders a response template for one request

Options:
  -h, --help     Print help
  -V, --version  Print version

`mock COMMAND --help`, or `mock help COMMAND`, explains a command.

Example, in the folder of this repository:
  mock serve --port 8080 --mappings examples/scenario.json
";

const RENDER_HELP: &str = "Renders a response template for one request

Usage: mock render [OPTIONS] <TEMPLATE> <METHOD> <URL>

Arguments:
  <TEMPLATE>  The text of the template
  <METHOD>    The method of the request, as GET
  <URL>       The target of the request, as /hi/Ann?q=1 or http://host/hi/Ann

Options, before TEMPLATE:
      --html-escape  Escapes what {{x}} prints for HTML, but not what {{{x}}} prints
  -h, --help         Print help

It prints the steps of the run and the bytes of the text, each with its budget, and then the text.
A budget is a list of coefficients, the constant first: [6,1] is 6 + n, where n is the size of the
request's data. The request has no headers and no body.

Where TEMPLATE is `-h`, `--help`, `--html-escape` or `--`, a `--` has to precede it.

Example:
  mock render 'Hello {{request.path.[1]}}' GET /hi/Ann

prints
  steps 5 of [5]
  bytes 9 of [6,1]
  Hello Ann
";

const CHECK_HELP: &str =
    "Says which mappings of a file are accepted, and what their templates may cost

Usage: mock check [OPTIONS] <FILE>

Arguments:
  <FILE>  A JSON file: one mapping, or an object with a list `mappings`; or a folder of such files

Options, before FILE:
      --html-escape  Escapes what {{x}} prints in templates for HTML, but not what {{{x}}} prints
  -h, --help         Print help

It prints a line for each mapping, numbered from 1:
  1 plain                   it is accepted, and has no templates
  2 steps [5] bytes [11,1]  it is accepted; the budgets of its templates, added up
  3 error 11                it is refused, with the code of its first error
and to standard error where and why a mapping is refused, and warnings, as of fields that are ignored.
The status is 1 where a mapping is refused. A budget is a list of coefficients, the constant first:
[11,1] is 11 + n, where n is the size of a request's data.

Where FILE is `-h`, `--help`, `--html-escape` or `--`, a `--` has to precede it.

Example, in the folder of this repository:
  mock check examples/several.json

prints
  1 plain
  2 steps [5] bytes [11,1]
";

const ANSWER_HELP: &str = "Prints what a server with the mappings of a file replies to one request

Usage: mock answer [OPTIONS] <MAPPINGS> <METHOD> <URL>

Arguments:
  <MAPPINGS>  A JSON file: one mapping, or an object with a list `mappings`; or a folder of such files
  <METHOD>    The method of the request, as GET
  <URL>       The target of the request, as /hi/Ann?q=1 or http://host/hi/Ann

Options, before MAPPINGS:
      --html-escape  Escapes what {{x}} prints in templates for HTML, but not what {{{x}}} prints
  -h, --help         Print help

Options, anywhere:
      --header <NAME: VALUE>  A header of the request; may be given several times
      --body <TEXT>           Its body
      --body-file <FILE>      A file with its body

It prints the reply of a server that has just started: the status, the headers, an empty line and
the body. Where and why a mapping is refused, and warnings, are written to standard error.

Where an argument is the name of an option, or MAPPINGS is `-h`, `--help`, `--html-escape` or `--`, a
`--` has to precede MAPPINGS.

Example, in the folder of this repository:
  mock answer examples/plain.json GET /hello

prints
  status 200
  Content-Type: text/plain

  Hello
";

const EXPLAIN_HELP: &str =
    "Says which mapping of a file answers a request, and why each other one doesn't

Usage: mock explain [OPTIONS] <MAPPINGS> <METHOD> <URL>

Arguments:
  <MAPPINGS>  A JSON file: one mapping, or an object with a list `mappings`; or a folder of such files
  <METHOD>    The method of the request, as GET
  <URL>       The target of the request, as /hi/Ann?q=1 or http://host/hi/Ann

Options, before MAPPINGS:
      --html-escape  Escapes what {{x}} prints in templates for HTML, but not what {{{x}}} prints
  -h, --help         Print help

Options, anywhere:
      --header <NAME: VALUE>    A header of the request; may be given several times
      --body <TEXT>             Its body
      --body-file <FILE>        A file with its body
      --state <SCENARIO=STATE>  The state that a scenario is set to first; may be given several times
      --json                    Prints the same as JSON

Its first line says which mapping of a server that has just started answers, and with which status, or
that none does. Then come the mappings, in the order in which they are chosen; below one that doesn't
match, a line for each of its conditions that the request doesn't meet, and what was found. The status
is 0 where a mapping answers, and 1 where none does.

Where an argument is the name of an option, or MAPPINGS is `-h`, `--help`, `--html-escape` or `--`, a
`--` has to precede MAPPINGS.

Example, in the folder of this repository:
  mock explain examples/plain.json POST /hello

prints
  no mapping answers: status 404
  mapping 1 (name \"a plain answer\"): doesn't match
    method \"GET\", found \"POST\"
";

/// A command that is asked for, with its arguments as they are on the command line.
#[derive(Clone, Copy)]
pub(crate) enum CommandCall<'a> {
    Render {
        template: &'a str,
        method: &'a str,
        target: &'a str,
    },
    Check {
        file: &'a str,
    },
    Answer(RequestArguments<'a, 'a, 'a>),
    Explain(RequestArguments<'a, 'a, 'a>),
}

/// The arguments of a command that is about one request: the mappings, and the request's method and target. Each has a
/// lifetime of its own, since they are lent beside what the options hold.
#[derive(Clone, Copy)]
pub(crate) struct RequestArguments<'f, 'm, 't> {
    pub(crate) file: &'f str,
    pub(crate) method: &'m str,
    pub(crate) target: &'t str,
}

/// The command that the arguments ask for, or the text of `clap` in place of one. The parser requires one of the
/// commands.
pub(crate) fn call_of<'a>(
    alloc: Global,
    arguments: &'a [&'a str],
) -> Result<Option<CommandCall<'a>>, Error>
    ensures ok { IfOk result (λ call.
        option_map asked_of call ≡ asked_by (map (λ argument. argument.now) arguments.now)) }
    ensures err { is_taken (map (λ argument. argument.now) arguments.now) ≡ true
        → IfErr result (λ error. kind_of error ≡ ErrorKind.OutOfMemory) }
    ensures kinds { FailsBy (answers_to (map (λ argument. argument.now) arguments.now)) result }
{
    let matches = command(alloc)?.try_get_matches_from(arguments)?;
    match matches.subcommand() {
        Some((name, arguments)) => Ok(call_in(name, arguments)),
        None => Ok(None),
    }
}

fn call_in<'a>(name: &str, arguments: &ArgMatches<'a>) -> Option<CommandCall<'a>>
    ensures { option_map asked_of result ≡ asked_in name.now (rows_of (found_of arguments.now)) }
{
    match name {
        "render" => render_call(arguments),
        "check" => check_call(arguments),
        "answer" => answer_call(arguments),
        "explain" => explain_call(arguments),
        _ => None,
    }
}

fn render_call<'a>(arguments: &ArgMatches<'a>) -> Option<CommandCall<'a>>
    ensures { option_map asked_of result ≡ render_in (rows_of (found_of arguments.now)) }
{
    Some(CommandCall::Render {
        template: value(arguments, "template")?,
        method: value(arguments, "method")?,
        target: value(arguments, "url")?,
    })
}

fn check_call<'a>(arguments: &ArgMatches<'a>) -> Option<CommandCall<'a>>
    ensures { option_map asked_of result ≡ check_in (rows_of (found_of arguments.now)) }
{
    Some(CommandCall::Check {
        file: value(arguments, "file")?,
    })
}

fn answer_call<'a>(arguments: &ArgMatches<'a>) -> Option<CommandCall<'a>>
    ensures { option_map asked_of result ≡ answer_in (rows_of (found_of arguments.now)) }
{
    Some(CommandCall::Answer(request_arguments(arguments)?))
}

fn explain_call<'a>(arguments: &ArgMatches<'a>) -> Option<CommandCall<'a>>
    ensures { option_map asked_of result ≡ explain_in (rows_of (found_of arguments.now)) }
{
    Some(CommandCall::Explain(request_arguments(arguments)?))
}

fn request_arguments<'a>(arguments: &ArgMatches<'a>) -> Option<RequestArguments<'a, 'a, 'a>>
    ensures { option_map texts_of result ≡ request_in (rows_of (found_of arguments.now)) }
{
    Some(RequestArguments {
        file: value(arguments, "mappings")?,
        method: value(arguments, "method")?,
        target: value(arguments, "url")?,
    })
}

fn value<'a>(arguments: &ArgMatches<'a>, id: &str) -> Option<&'a str>
    ensures { option_map (λ value. value.now) result ≡ first_of id.now (rows_of (found_of arguments.now)) }
{
    arguments.get_str(id)
}

fn command<'a>(alloc: Global) -> Result<Command<'a>, AllocError>
    ensures { IfOk result (λ made. app_of made ≡ mock_app) }
{
    Command::new(alloc, "mock")
        .version("1")
        .override_help(MOCK_HELP)
        .arg_required_else_help(true)
        .subcommand_required(true)
        .disable_help_subcommand(true)
        .subcommand(render_command(alloc)?)?
        .subcommand(check_command(alloc)?)?
        .subcommand(answer_command(alloc)?)?
        .subcommand(explain_command(alloc)?)
}

fn render_command<'a>(alloc: Global) -> Result<Command<'a>, AllocError>
    ensures app { IfOk result (λ made. app_of made ≡ render_app) }
    ensures local { IfOk result (λ made. (fields_of made).has_globals ≡ false) }
{
    let command = Command::new(alloc, "render")
        .about("Renders a response template for one request")
        .override_help(RENDER_HELP);
    let template = required(alloc, "template", "TEMPLATE", "The text of the template");
    with_request(alloc, command.arg(template)?)
}

fn check_command<'a>(alloc: Global) -> Result<Command<'a>, AllocError>
    ensures app { IfOk result (λ made. app_of made ≡ check_app) }
    ensures local { IfOk result (λ made. (fields_of made).has_globals ≡ false) }
{
    let command = Command::new(alloc, "check")
        .about("Says which mappings of a file are accepted, and what their templates may cost")
        .override_help(CHECK_HELP);
    command.arg(required(
        alloc,
        "file",
        "FILE",
        "A JSON file: one mapping, or an object with a list `mappings`",
    ))
}

fn answer_command<'a>(alloc: Global) -> Result<Command<'a>, AllocError>
    ensures app { IfOk result (λ made. app_of made ≡ answer_app) }
    ensures local { IfOk result (λ made. (fields_of made).has_globals ≡ false) }
{
    let command = Command::new(alloc, "answer")
        .about("Prints what a server with the mappings of a file replies to one request")
        .override_help(ANSWER_HELP);
    with_request(alloc, command.arg(mappings(alloc))?)
}

fn explain_command<'a>(alloc: Global) -> Result<Command<'a>, AllocError>
    ensures app { IfOk result (λ made. app_of made ≡ explain_app) }
    ensures local { IfOk result (λ made. (fields_of made).has_globals ≡ false) }
{
    let command = Command::new(alloc, "explain")
        .about("Says which mapping of a file answers a request, and why each other one doesn't")
        .override_help(EXPLAIN_HELP);
    with_request(alloc, command.arg(mappings(alloc))?)
}

fn mappings<'a>(alloc: Global) -> Arg<'a>
    ensures rule { rule_of result ≡ required_rule (codes "mappings") }
    ensures local { result.global ≡ false }
{
    required(
        alloc,
        "mappings",
        "MAPPINGS",
        "A JSON file: one mapping, or an object with a list `mappings`",
    )
}

// The command with the arguments of a request after its own.
fn with_request<'a>(alloc: Global, command: Command<'a>) -> Result<Command<'a>, AllocError>
    ensures app { IfOk result (λ made. app_of made ≡ with_request (app_of command.entry)) }
    ensures globals { IfOk result (λ made. (fields_of made).has_globals
        ≡ (fields_of command.entry).has_globals) }
{
    let method = required(
        alloc,
        "method",
        "METHOD",
        "The method of the request, as GET",
    );
    let target = required(
        alloc,
        "url",
        "URL",
        "The target of the request, as /hi/Ann?q=1 or http://host/hi/Ann",
    );
    command.arg(method)?.arg(target)
}

fn required<'a>(alloc: Global, id: &'a str, name: &'a str, help: &'a str) -> Arg<'a>
    ensures rule { rule_of result ≡ required_rule id.entry.now }
    ensures local { result.global ≡ false }
{
    Arg::new(alloc, id)
        .value_name(name)
        .help(help)
        .required(true)
}
