//! `mock save`: the mappings of a running server.
ghost use Rattle.std.specs.Prelude.{◌≡◌, ◌≤◌, List, ℕ};
ghost use Rattle.std.specs.Io.KnownBytes.{Appends};
ghost use Rattle.mapping_files.specs.Saved.{IsFileText, saved_line};
ghost use Rattle.mapping_files.specs.declared.file_text.Listed.TheVariants.{NewestFirst};

use crate::file_text::{Listed, NoText, file_text_of};
use crate::file_writer::FileWriter;
use crate::recorded::store_text;
use crate::server::{CallError, call};
use command_output::error::CommandError;
use command_output::files::reason_line;
use command_output::output::{put_all, put_notes};
use command_output::status::{FAILURE, INVALID_ARGUMENTS, SUCCESS};
use error_code::error_code::ErrorCode;
use itoa::Buffer;
use std::alloc::{AllocGlobal, Global};
use std::io;
use std::io::Write;
use std::net::Net;
use std::random::RandomSource;
use std::sync::Wait;
use std::time::Clock;

/// Writes the mappings of the server at the address to a file at the path, the oldest first, and says how many they are.
/// Gives the exit status: 0, or 1 with an error on `err`, or 2 where the address isn't one.
pub fn save<R, O, E>(rt: R, address: &str, path: &str, out: &mut O, err: &mut E) -> u8
where
    R: Wait + Net + Clock + RandomSource + AllocGlobal + FileWriter + Copy + Drop,
    O: Write,
    E: Write,
    ensures saved { result ≡ 0 → (answer : List ℕ) × (text : List ℕ) × (count : ℕ)
        × IsFileText NewestFirst answer text count × R.stored rt path.now text
        × Appends (O.contents out.old) (O.contents out.new) (saved_line count) × (err.new ≡ err.old) }
    ensures status { result ≤ 2 }
{
    match call(&rt, address, "GET", "/__admin/mappings") {
        Ok(answer) => save_answer(rt.alloc(), &rt, answer.as_slice(), path, out, err),
        Err(CallError::BadAddress) => report_address(address, err),
        Err(error) => report_call(rt.alloc(), address, error, err),
    }
}

/// Writes the mappings that a server has answered with.
pub fn save_answer<F: FileWriter, O: Write, E: Write>(
    alloc: Global,
    files: &F,
    answer: &[u8],
    path: &str,
    out: &mut O,
    err: &mut E,
) -> u8
    ensures saved { result ≡ 0 → (text : List ℕ) × (count : ℕ)
        × IsFileText NewestFirst answer.now text count × F.stored files.now path.now text
        × Appends (O.contents out.old) (O.contents out.new) (saved_line count) × (err.new ≡ err.old) }
    ensures status { result ≤ 1 }
{
    match file_text_of(alloc, answer, Listed::NewestFirst) {
        Ok(made) => match store_text(alloc, files, path, made.text.as_str()) {
            Ok(()) => put_saved(made.count, out),
            Err(error) => report_file(alloc, path, &error, err),
        },
        Err(NoText::NoMappings) => report_answer(err),
        Err(NoText::OutOfMemory) => out_of_memory(err),
    }
}

fn put_saved<O: Write>(count: usize, out: &mut O) -> u8
    ensures written { result ≡ 0 → Appends (O.contents out.old) (O.contents out.new) (saved_line count) }
    ensures status { result ≤ 1 }
{
    let mut digits = Buffer::new();
    let texts = ["saved ", digits.format(count), " mappings\n"];
    match put_all(out, texts.as_slice()) {
        Ok(()) => SUCCESS,
        Err(_error) => FAILURE,
    }
}

// The exit status is 1 after each of these, also where the line isn't taken.

fn report_file<E: Write>(alloc: Global, path: &str, error: &io::Error, err: &mut E) -> u8
    ensures { result ≡ FAILURE }
{
    let _ = put_all(err, ["error: cannot write ", path, "\n"].as_slice());
    put_notes(err, reason_line(alloc, error).as_str());
    FAILURE
}

fn report_call<E: Write>(alloc: Global, address: &str, error: CallError, err: &mut E) -> u8
    ensures { result ≡ FAILURE }
{
    let _ = put_all(err, ["error: no mappings from ", address, "\n"].as_slice());
    // It is said if there is memory for it.
    if let Ok(reason) = error.reason(alloc) {
        let _ = put_all(err, ["  ", reason.as_str(), "\n"].as_slice());
    }
    FAILURE
}

fn report_answer<E: Write>(err: &mut E) -> u8
    ensures { result ≡ FAILURE }
{
    put_notes(
        err,
        "error: the answer of the server is no list of mappings\n",
    );
    FAILURE
}

/// Reports it, and gives the exit status.
pub fn out_of_memory<E: Write>(err: &mut E) -> u8
    ensures { result ≡ FAILURE }
{
    CommandError::from(ErrorCode::OutOfMemory).report(err);
    FAILURE
}

// As `clap` says it of other values.
fn report_address<E: Write>(address: &str, err: &mut E) -> u8
    ensures status { result ≤ 2 }
    ensures not_zero { 1 ≤ result }
{
    let texts = [
        "error: invalid value '",
        address,
        "' for '<SERVER>': a server is as 127.0.0.1:8080, localhost:8080 or [::1]:8080\n\nFor more information, try '--help'.\n",
    ];
    match put_all(err, texts.as_slice()) {
        Ok(()) => INVALID_ARGUMENTS,
        Err(_error) => FAILURE,
    }
}
