//! The program: its command line, and its commands `mock serve` and `mock record` with their arguments and their server.
//! Every other command is done by a crate of its own. `main` hands on the process's arguments and standard streams, and
//! ends with the exit status that comes back.
#![tactic(auto)]

mod arguments;
mod command_line;
mod descriptors;
mod page;
mod record;
mod serve;
mod server_log;
mod serving_threads;
mod streams;
mod system;
mod watch;

use command_line::run;
use mock_program::arguments::report_unreadable;
use std::env::VarError;
use std::io::{IsTerminal, Write};
use std::process::ExitCode;
use std::{env, io};
use streams::{Output, Visible};

fn main(rt: HostRuntime) -> ExitCode {
    let mut out = Output::new(rt.stdout());
    let mut err = Visible::new(rt.stderr());
    let status = match process_arguments(&rt) {
        Ok(arguments) => run(
            rt,
            arguments.as_slice(),
            &mut out,
            &mut err,
            Visible::new(rt.stderr()),
            rt.stdin(),
            takes_colours(&rt),
        ),
        Err(error) => report_unreadable(&error, &mut err),
    };
    if let Some(error) = out.failure() {
        report_output(error, &mut err);
    }
    ExitCode::from(status)
}

// Why standard output doesn't have all that was to be written. The exit status is 1 already.
fn report_output<E: Write>(error: io::Error, err: &mut E) {
    let _ = write!(err, "error: cannot write to standard output\n  {error}\n");
}

// A terminal does, unless the environment asks for none (https://no-color.org).
fn takes_colours(rt: &HostRuntime) -> bool {
    matches!(env::var(rt, "NO_COLOR"), Err(VarError::NotPresent) if rt.stdout().is_terminal())
}

fn process_arguments(rt: &HostRuntime) -> io::Result<Vec<String>> {
    Ok(env::args(rt)?.collect(rt.alloc())?)
}
