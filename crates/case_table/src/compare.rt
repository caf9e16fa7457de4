//! Comparing what is answered with what is wanted.

use crate::row::{Row, read_row};
use std::alloc::{AllocError, Global};
use std::process::ExitCode;
use std::{fs, io};

/// A table of cases about one kind of call.
pub trait CaseTable: Copy {
    /// The name of the file with its rows, in the folder where the program runs.
    fn file(self) -> &'static str;

    /// What is answered to what the row gives: cells, each after a TAB.
    fn answer(self, alloc: Global, row: &Row) -> Result<String, AllocError>;
}

/// Compares all rows of the tables, and prints each row that differs with what is answered, then how many cases there
/// were and how many differ. The status is 1 where one differs or there is none. A row whose answer runs out of memory
/// twice differs.
pub fn compare_all<T: CaseTable>(rt: &HostRuntime, tables: &[T]) -> io::Result<ExitCode> {
    let mut cases = 0u64;
    let mut differ = 0u64;
    for table in tables {
        let text = read_again(rt, table.file())?;
        for line in text.lines() {
            if let Some(agrees) = agrees(rt, *table, line)? {
                cases = cases.saturating_add(1);
                differ = differ.saturating_add(u64::from(!agrees));
            }
        }
    }
    println!(rt; "{cases} cases, {differ} differ")?;
    Ok(ExitCode::from(u8::from(cases == 0 || differ > 0)))
}

// Once more where memory ran out.
fn read_again(rt: &HostRuntime, file: &str) -> io::Result<String> {
    match fs::read_to_string(rt, file) {
        Ok(text) => Ok(text),
        Err(_error) => fs::read_to_string(rt, file),
    }
}

/// How a line compares.
#[derive(Drop)]
enum Comparison {
    NoRow,
    Agrees,
    /// With what is answered.
    Differs(String),
    OutOfMemory,
}

// Whether the row of the line agrees, if it has one; otherwise it is printed.
fn agrees<T: CaseTable>(rt: &HostRuntime, table: T, line: &str) -> io::Result<Option<bool>> {
    match compare_again(rt.alloc(), table, line) {
        Comparison::NoRow => Ok(None),
        Comparison::Agrees => Ok(Some(true)),
        Comparison::Differs(answer) => {
            report(rt, table.file(), line, answer.as_str())?;
            Ok(Some(false))
        }
        Comparison::OutOfMemory => {
            report(rt, table.file(), line, "\tout of memory")?;
            Ok(Some(false))
        }
    }
}

// Once more where memory ran out, so that a run in which an allocation fails prints the same.
fn compare_again<T: CaseTable>(alloc: Global, table: T, line: &str) -> Comparison {
    match compare(alloc, table, line) {
        Ok(comparison) => comparison,
        Err(_error) => compare(alloc, table, line).unwrap_or(Comparison::OutOfMemory),
    }
}

fn compare<T: CaseTable>(alloc: Global, table: T, line: &str) -> Result<Comparison, AllocError> {
    let Some(row) = read_row(alloc, line)? else {
        return Ok(Comparison::NoRow);
    };
    let answer = table.answer(alloc, &row)?;
    if answer.as_str() == row.wanted.as_str() {
        Ok(Comparison::Agrees)
    } else {
        Ok(Comparison::Differs(answer))
    }
}

fn report(rt: &HostRuntime, file: &str, line: &str, answer: &str) -> io::Result<()> {
    println!(rt; "{file}: {line}")?;
    println!(rt; "  but{answer}")
}
