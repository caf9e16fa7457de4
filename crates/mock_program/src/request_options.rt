//! What the options of `answer` and `explain` mean.
ghost use Rattle.std.specs.Prelude.{◌≡◌, ◌≢◌, ◌⊎◌, [], IfErr, IfOk, false, map};
ghost use Rattle.mock_program.specs.Options.{given_of};

use crate::options::GivenOption;
use command_output::error::CommandError;
use command_output::files::{FileError, FileReader, read_file, reason_line};
use command_output::output::{put_all, put_notes};
use command_output::status::{FAILURE, INVALID_ARGUMENTS};
use error_code::error_code::ErrorCode;
use http_header::{HeaderName, HeaderNameError, HeaderValue, HeaderValueError};
use mapping_commands::explain::GivenState;
use std::alloc::{AllocError, Global};
use std::io::Write;

/// What is sent beside method and target, and what `explain` is asked beside.
#[derive(Drop)]
pub(crate) struct RequestOptions<'a> {
    pub(crate) headers: Vec<(HeaderName, HeaderValue)>,
    pub(crate) body: Vec<u8>,
    pub(crate) states: Vec<GivenState<'a>>,
    pub(crate) is_json: bool,
}

/// Why options aren't taken.
#[derive(Clone, Copy)]
pub(crate) enum OptionsError<'a> {
    /// The value of the option, and what is wrong with it.
    BadValue(GivenOption<'a>, &'static str),
    /// The command has no such option, or only one of its kind.
    Unexpected(&'a str),
    /// The file at the path can't be read.
    Unread(FileError, &'a str),
    OutOfMemory,
}

impl<'a> From<AllocError> for OptionsError<'a> {
    fn from(_error: AllocError) -> OptionsError<'a> {
        OptionsError::OutOfMemory
    }
}

impl<'a> OptionsError<'a> {
    /// Writes its lines, and gives the exit status: 2 for invalid arguments, and 1 for a file that can't be read, where
    /// memory is out, or where its lines can't be written.
    pub(crate) fn report<E: Write>(self, alloc: Global, err: &mut E) -> u8
        ensures { (result ≡ 1) ⊎ (result ≡ 2) }
    {
        match self {
            OptionsError::BadValue(option, reason) => report_value(option, reason, err),
            OptionsError::Unexpected(name) => put_invalid(
                ["error: unexpected argument '", name, "' found", HINT].as_slice(),
                err,
            ),
            OptionsError::Unread(error, path) => {
                error.report(path, err);
                if let FileError::CannotRead(reason) = &error {
                    put_notes(err, reason_line(alloc, reason).as_str());
                }
                FAILURE
            }
            OptionsError::OutOfMemory => {
                CommandError::from(ErrorCode::OutOfMemory).report(err);
                FAILURE
            }
        }
    }
}

const HINT: &str = "\n\nFor more information, try '--help'.\n";

// As `clap` says it of other values.
fn report_value<E: Write>(option: GivenOption<'_>, reason: &str, err: &mut E) -> u8
    ensures { (result ≡ 1) ⊎ (result ≡ 2) }
{
    put_invalid(
        [
            "error: invalid value '",
            option.value,
            "' for '",
            option.name,
            "': ",
            reason,
            HINT,
        ]
        .as_slice(),
        err,
    )
}

fn put_invalid<E: Write>(texts: &[&str], err: &mut E) -> u8
    ensures { (result ≡ 1) ⊎ (result ≡ 2) }
{
    match put_all(err, texts) {
        Ok(()) => INVALID_ARGUMENTS,
        Err(_error) => FAILURE,
    }
}

/// What the options mean. Only `explain` takes states and `--json`.
pub(crate) fn request_options<'a, F: FileReader>(
    alloc: Global,
    files: &F,
    options: &[GivenOption<'a>],
    is_explain: bool,
) -> Result<RequestOptions<'a>, OptionsError<'a>>
    ensures plain { IfOk result (λ made. map given_of options.now ≡ []
        → (made.headers.items ≡ []) × (made.body.items ≡ []) × (made.states.items ≡ [])
        × (made.is_json ≡ false)) }
    ensures given { IfErr result (λ error. map given_of options.now ≢ []) }
{
    let mut made = RequestOptions {
        headers: Vec::new(alloc),
        body: Vec::new(alloc),
        states: Vec::new(alloc),
        is_json: false,
    };
    let mut has_body = false;
    for option in options {
        if is_body(option.name) {
            if has_body {
                return Err(OptionsError::Unexpected(option.name));
            }
            has_body = true;
            made.body = body_of(alloc, files, *option)?;
        } else if option.name == "--header" {
            push(&mut made.headers, header_of(alloc, *option)?)?;
        } else if !is_explain {
            return Err(OptionsError::Unexpected(option.name));
        } else if option.name == "--state" {
            push(&mut made.states, state_of(*option)?)?;
        } else {
            made.is_json = true;
        }
    }
    Ok(made)
}

fn push<T: Drop>(list: &mut Vec<T>, item: T) -> Result<(), AllocError> {
    list.push(item)?;
    Ok(())
}

fn is_body(name: &str) -> bool {
    name == "--body" || name == "--body-file"
}

fn body_of<'a, F: FileReader>(
    alloc: Global,
    files: &F,
    option: GivenOption<'a>,
) -> Result<Vec<u8>, OptionsError<'a>> {
    if option.name == "--body" {
        return Ok(Vec::from_slice(alloc, option.value.as_bytes())?);
    }
    match read_file(alloc, files, option.value) {
        Ok(bytes) => Ok(bytes),
        Err(error) => Err(OptionsError::Unread(error, option.value)),
    }
}

/// As `NAME: VALUE`.
fn header_of<'a>(
    alloc: Global,
    option: GivenOption<'a>,
) -> Result<(HeaderName, HeaderValue), OptionsError<'a>> {
    let Some((name, value)) = option.value.split_once(':') else {
        return Err(OptionsError::BadValue(option, "it isn't NAME: VALUE"));
    };
    let name = match HeaderName::from_bytes(alloc, name.as_bytes()) {
        Ok(name) => name,
        Err(HeaderNameError::OutOfMemory) => return Err(OptionsError::OutOfMemory),
        Err(HeaderNameError::Invalid) => {
            return Err(OptionsError::BadValue(option, "its name isn't a header's"));
        }
    };
    match HeaderValue::from_str(alloc, value.trim_matches([' ', '\t'])) {
        Ok(value) => Ok((name, value)),
        Err(HeaderValueError::OutOfMemory) => Err(OptionsError::OutOfMemory),
        Err(HeaderValueError::Invalid) => {
            Err(OptionsError::BadValue(option, "its value isn't a header's"))
        }
    }
}

/// As `SCENARIO=STATE`.
fn state_of<'a>(option: GivenOption<'a>) -> Result<GivenState<'a>, OptionsError<'a>> {
    match option.value.split_once('=') {
        Some((scenario, state)) => Ok(GivenState { scenario, state }),
        None => Err(OptionsError::BadValue(option, "it isn't SCENARIO=STATE")),
    }
}
