//! The arguments of `mock serve`, `mock record` and `mock save`.
use clap::{Arg, ArgAction, ArgMatches, Command, Error, value_parser};
use std::alloc::{AllocError, Global};
use std::net::{IpAddr, Ipv4Addr};
use template_tree::escape::Escape;

const SERVE_HELP: &str =
    "Its first line is `listening on ADDRESS:PORT`, and it goes on until it is stopped. It serves on
127.0.0.1, for clients of this machine alone, or on the address of --bind-address: 0.0.0.0 is every
IPv4 address of this machine, as in a container, and :: every address.
Admin calls, on paths below /__admin, list, add, edit and remove mappings, and show which requests
were received; a reset brings the mappings of FILE back. A recording, from
POST /__admin/recordings/start to POST /__admin/recordings/stop, forwards what no mapping matches to
another server, and makes mappings of its answers.
With --page a browser shows the requests and steers all that at http://127.0.0.1:PORT/__admin/page.
With --connections it ends after N connections, and prints the number of its last event, as
`settled 3 events`, if its events are those that the connections have seen.
Where mappings are refused it says which and why, and ends; with --skip-refused it serves the others.
With --end-with-stdin it ends when its standard input does, as a test suite's server is ended by closing
it: what is being answered is answered, for 2 s at most, and then it ends as after N connections.
What is wrong with a mapping, where, and warnings are written to standard error, also of mappings that
are posted, and why an admin call was refused or a request was forwarded in vain; with --verbose a
line for each request, as `7 GET /todo unmatched 404`: the number of its event, the request, what
answered it, and the status; and where no mapping matched it, the three that come nearest, and what
differs.

Example, in the folder of this repository:
  mock serve --port 8080 --mappings examples/scenario.json

and then from another shell:
  curl http://127.0.0.1:8080/todo
  curl -X POST http://127.0.0.1:8080/todo -d milk
  curl http://127.0.0.1:8080/todo
  curl http://127.0.0.1:8080/__admin/requests

A recording of a server on port 9000, as examples/upstream.py is one:
  curl http://127.0.0.1:8080/__admin/recordings/start \\
    -d '{\"targetBaseUrl\":\"http://127.0.0.1:9000\"}'
  curl http://127.0.0.1:8080/count
  curl -X POST http://127.0.0.1:8080/__admin/recordings/stop";

const RECORD_HELP: &str =
    "It serves as `serve` does, and forwards what no mapping matches to TARGET, and gives the reply: as
http://127.0.0.1:9000; the host is localhost, an IPv4 address, or an IPv6 address in brackets. When its
standard input ends, as by Ctrl-D, it writes the mappings that give the same replies to FILE, which is
a file for `serve --mappings`, and prints how many they are, as `recorded 3 mappings, skipped 1`: of
so many exchanges no mapping can be made, and standard error says of which, and why.
FILE is written whole or not at all, and so is the file of --har.

Example, with examples/upstream.py on port 9000:
  mock record http://127.0.0.1:9000 recorded.json --port 8080";

const SAVE_HELP: &str =
    "FILE is a file for `serve --mappings`: the oldest mapping first, each on a line of its own, so that a
server that is started with it chooses as the running one does. It is written beside FILE first, and
then takes the place of FILE: whatever happens, FILE is the old one or the new one as a whole.
It prints how many mappings it has written, as `saved 4 mappings`.

Example, while a server runs on port 8080:
  mock save localhost:8080 mappings.json";

/// How many threads serve, where the arguments don't say.
const THREADS: u64 = 1;

/// What is to be served, and where.
#[derive(Clone, Copy)]
pub struct ServeArguments<'a> {
    pub port: u16,
    /// The path of the file of mappings.
    pub mappings: Option<&'a str>,
    /// How the prints of templates are escaped, also of mappings that are posted.
    pub escape: Escape,
    pub address: IpAddr,
    /// After how many connections it ends.
    pub connections: Option<u64>,
    /// How many connections are open at once.
    pub max_connections: Option<u64>,
    /// How many threads serve.
    pub threads: u64,
    /// At how many requests the journal is cleared.
    pub journal_limit: Option<u64>,
    /// The path of the file of the page.
    pub page: Option<&'a str>,
    /// The number of the first event, if it is asked for.
    pub first_event: Option<u64>,
    /// Whether mappings that are refused are left out.
    pub skips_refused: bool,
    /// Whether it ends when standard input does.
    pub ends_with_input: bool,
    /// Whether each request is told of.
    pub verbose: bool,
}

/// What is to be recorded, and where it is written.
#[derive(Drop)]
pub struct RecordArguments<'a> {
    pub target: &'a str,
    pub file: &'a str,
    pub har: Option<&'a str>,
    /// The names of the request headers that recorded mappings match.
    pub captured: Vec<&'a str>,
}

/// What the arguments ask for.
#[derive(Drop)]
pub enum ServerCall<'a> {
    Serve(ServeArguments<'a>),
    Record(ServeArguments<'a>, RecordArguments<'a>),
    /// The mappings of a server are to be written to a file.
    Save { server: &'a str, file: &'a str },
    /// The address to listen on isn't one.
    BadAddress(&'a str),
}

/// What the arguments ask for, the first being the program's name and the second that of the command; or the text of
/// `clap` in place of it, for help or for arguments that aren't valid.
pub fn call_of<'a>(
    alloc: Global,
    arguments: &'a [&'a str],
) -> Result<Option<ServerCall<'a>>, Error> {
    let matches = command(alloc)?.try_get_matches_from(arguments)?;
    match matches.subcommand() {
        Some((name, given)) => Ok(call_in(alloc, name, given)?),
        None => Ok(None),
    }
}

fn call_in<'a>(
    alloc: Global,
    name: &str,
    given: &ArgMatches<'a>,
) -> Result<Option<ServerCall<'a>>, AllocError> {
    match name {
        "save" => Ok(save_in(given)),
        "record" => record_in(alloc, given),
        _ => Ok(serve_in(given)),
    }
}

fn save_in<'a>(given: &ArgMatches<'a>) -> Option<ServerCall<'a>> {
    Some(ServerCall::Save {
        server: given.get_str("server")?,
        file: given.get_str("file")?,
    })
}

fn serve_in<'a>(given: &ArgMatches<'a>) -> Option<ServerCall<'a>> {
    match address_in(given) {
        Ok(address) => Some(ServerCall::Serve(arguments_in(given, address)?)),
        Err(text) => Some(ServerCall::BadAddress(text)),
    }
}

fn record_in<'a>(
    alloc: Global,
    given: &ArgMatches<'a>,
) -> Result<Option<ServerCall<'a>>, AllocError> {
    match address_in(given) {
        Ok(address) => record_at(alloc, given, address),
        Err(text) => Ok(Some(ServerCall::BadAddress(text))),
    }
}

fn record_at<'a>(
    alloc: Global,
    given: &ArgMatches<'a>,
    address: IpAddr,
) -> Result<Option<ServerCall<'a>>, AllocError> {
    let Some(served) = arguments_in(given, address) else {
        return Ok(None);
    };
    let Some(target) = given.get_str("target") else {
        return Ok(None);
    };
    let Some(file) = given.get_str("file") else {
        return Ok(None);
    };
    let mut captured = Vec::new(alloc);
    if let Some(names) = given.get_strs("capture-header") {
        push_names(&mut captured, names)?;
    }
    let har = given.get_str("har");
    let record = RecordArguments {
        target,
        file,
        har,
        captured,
    };
    Ok(Some(ServerCall::Record(served, record)))
}

fn push_names<'a>(all: &mut Vec<&'a str>, names: &[&'a str]) -> Result<(), AllocError> {
    for name in names {
        all.push(*name)?;
    }
    Ok(())
}

// The address to listen on, or the text that isn't one.
fn address_in<'a>(given: &ArgMatches<'a>) -> Result<IpAddr, &'a str> {
    match given.get_str("bind-address") {
        Some(text) => match text.parse::<IpAddr>() {
            Ok(address) => Ok(address),
            Err(_error) => Err(text),
        },
        None => Ok(IpAddr::V4(Ipv4Addr::LOCALHOST)),
    }
}

fn arguments_in<'a>(given: &ArgMatches<'a>, address: IpAddr) -> Option<ServeArguments<'a>> {
    Some(ServeArguments {
        port: given.get_one("port")?,
        mappings: given.get_str("mappings"),
        escape: escape_in(given),
        address,
        connections: given.get_one("connections"),
        max_connections: given.get_one("max-connections"),
        threads: given.get_one("threads").unwrap_or(THREADS),
        journal_limit: given.get_one("journal-limit"),
        page: given.get_str("page"),
        first_event: given.get_one("first-event"),
        skips_refused: given.get_flag("skip-refused"),
        ends_with_input: given.get_flag("end-with-stdin"),
        verbose: given.get_flag("verbose"),
    })
}

fn escape_in(given: &ArgMatches<'_>) -> Escape {
    if given.get_flag("html-escape") {
        Escape::Html
    } else {
        Escape::Off
    }
}

fn command<'a>(alloc: Global) -> Result<Command<'a>, AllocError> {
    Command::new(alloc, "mock")
        .version("1")
        .subcommand_required(true)
        .subcommand(serve_command(alloc)?)?
        .subcommand(record_command(alloc)?)?
        .subcommand(save_command(alloc)?)
}

fn save_command<'a>(alloc: Global) -> Result<Command<'a>, AllocError> {
    let server = "Where the server listens, as 127.0.0.1:8080";
    Command::new(alloc, "save")
        .about("Writes the mappings of a running server to a file")
        .after_help(SAVE_HELP)
        .arg(required(alloc, "server", "SERVER", server))?
        .arg(required(alloc, "file", "FILE", "The file to write"))
}

fn serve_command<'a>(alloc: Global) -> Result<Command<'a>, AllocError> {
    let command = Command::new(alloc, "serve")
        .about("Serves the mappings of a file, and takes admin calls")
        .after_help(SERVE_HELP);
    with_common(alloc, command)?
        .arg(connections(alloc))?
        .arg(max_connections(alloc))?
        .arg(threads(alloc))?
        .arg(journal_limit(alloc))?
        .arg(page(alloc))?
        .arg(skip_refused(alloc))?
        .arg(flag(alloc, "end-with-stdin", "Ends when standard input does"))?
        .arg(verbose(alloc))
}

fn record_command<'a>(alloc: Global) -> Result<Command<'a>, AllocError> {
    let target = "The server to record, as http://127.0.0.1:9000";
    let har = "Also writes the exchanges, as a HAR document, to this file";
    let command = Command::new(alloc, "record")
        .about("Serves, forwards to another server, and writes its replies as mappings to a file")
        .after_help(RECORD_HELP)
        .arg(required(alloc, "target", "TARGET", target))?
        .arg(required(alloc, "file", "FILE", "The file to write"))?;
    with_common(alloc, command)?
        .arg(captured_header(alloc))?
        .arg(option(alloc, "har", "FILE", har))?
        .arg(verbose(alloc))
}

// The command with the options that `serve` and `record` have.
fn with_common<'a>(alloc: Global, command: Command<'a>) -> Result<Command<'a>, AllocError> {
    let mappings =
        "A JSON file: one mapping, or an object with a list `mappings`; or a folder of them";
    let html = "Escapes what {{x}} prints in templates for HTML, but not what {{{x}}} prints";
    let address = "The IP address to listen on [default: 127.0.0.1]";
    command
        .arg(port(alloc))?
        .arg(option(alloc, "mappings", "FILE", mappings))?
        .arg(flag(alloc, "html-escape", html))?
        .arg(option(alloc, "bind-address", "ADDRESS", address))?
        .arg(first_event(alloc))
}

fn captured_header<'a>(alloc: Global) -> Arg<'a> {
    let help = "A header of requests that recorded mappings match, too; may be given several times";
    option(alloc, "capture-header", "NAME", help).action(ArgAction::Append)
}

fn port<'a>(alloc: Global) -> Arg<'a> {
    let help = "The port to listen on; 0 for a free one";
    option(alloc, "port", "PORT", help)
        .required(true)
        .value_parser(value_parser!(u16))
}

fn max_connections<'a>(alloc: Global) -> Arg<'a> {
    let help = "How many connections are open at once, while others wait [default: 900]";
    option(alloc, "max-connections", "N", help).value_parser(value_parser!(u64).range(1..))
}

fn threads<'a>(alloc: Global) -> Arg<'a> {
    let help = "How many threads serve, from 1 to 64 [default: 1]";
    option(alloc, "threads", "N", help).value_parser(value_parser!(u64).range(1..=64))
}

fn journal_limit<'a>(alloc: Global) -> Arg<'a> {
    let help = "Clears the journal of requests whenever it shows N of them";
    option(alloc, "journal-limit", "N", help).value_parser(value_parser!(u64))
}

fn page<'a>(alloc: Global) -> Arg<'a> {
    let help = "An HTML file that is the answer to GET /__admin/page, as dist/page.html is one";
    option(alloc, "page", "FILE", help)
}

fn first_event<'a>(alloc: Global) -> Arg<'a> {
    let help =
        "The number of the first event, from which ids and names are made [default: 1, or more where ids of the files would be given anew]";
    option(alloc, "first-event", "N", help).value_parser(value_parser!(u64).range(1..))
}

fn skip_refused<'a>(alloc: Global) -> Arg<'a> {
    let help = "Serves the mappings that are accepted, where others are refused";
    flag(alloc, "skip-refused", help)
}

fn verbose<'a>(alloc: Global) -> Arg<'a> {
    let help = "Writes a line to standard error for each request";
    flag(alloc, "verbose", help)
}

fn connections<'a>(alloc: Global) -> Arg<'a> {
    option(alloc, "connections", "N", "Ends after N connections").value_parser(value_parser!(u64))
}

// An argument that has to be given, in its place.
fn required<'a>(alloc: Global, id: &'a str, value: &'a str, help: &'a str) -> Arg<'a> {
    Arg::new(alloc, id)
        .value_name(value)
        .help(help)
        .required(true)
}

// An option with a value.
fn option<'a>(alloc: Global, name: &'a str, value: &'a str, help: &'a str) -> Arg<'a> {
    Arg::new(alloc, name)
        .long(name)
        .value_name(value)
        .help(help)
}

// An option without one.
fn flag<'a>(alloc: Global, name: &'a str, help: &'a str) -> Arg<'a> {
    Arg::new(alloc, name)
        .long(name)
        .help(help)
        .action(ArgAction::SetTrue)
}
