//! Stack code: its listing, the verifier's verdict on it and its runs. A row gives instructions, with a `;` between
//! two, and texts and paths, with a `|` between two. The steps of a path have a dot between two: a number is an index,
//! a name may stand between apostrophes, and `this` is a path without steps.

use crate::language::answers::{add_shown, run_cells};
use crate::language::numbers::{index, number};
use crate::language::snapshots::{request, request_with_body};
use crate::language::templates::{add_path, add_text};
use case_table::cells::Cells;
use case_table::row::Row;
use case_table::words::parts;
use code_verifier::error::VerifyError;
use code_verifier::verified::Verified;
use code_verifier::verify::verify;
use data_tree::request_data::RequestData;
use data_tree::step::{Path, Step};
use helper_set::helper::Helper;
use std::alloc::{AllocError, Global};
use template_code::code::Code;
use template_code::code_text::CodeText;
use template_code::instr::Instr;
use template_code::listing::listing;
use template_machine::run::run;

/// The listing of the code, its texts and its paths.
pub fn listed(alloc: Global, row: &Row) -> Result<String, AllocError> {
    code_cells(alloc, &read_code(alloc, row)?)
}

/// The listing of code, its texts and its paths.
pub fn code_cells(alloc: Global, code: &Code) -> Result<String, AllocError> {
    let listing = listing(alloc, code)?;
    let mut cells = Cells::new(alloc);
    cells.add_cell(listing.as_str());
    add_tables(&mut cells, code);
    cells.finish()
}

fn add_tables(cells: &mut Cells, code: &Code) {
    cells.add("\t");
    for text in code.texts() {
        add_text(cells, text.as_str());
    }
    cells.add("\t");
    for path in code.paths() {
        cells.add("{");
        add_path(cells, path);
    }
}

/// The rule that the code breaks and at which instruction, or its budgets, the steps of its run and what it writes. The
/// request follows the code.
pub fn verdict(alloc: Global, row: &Row) -> Result<String, AllocError> {
    match verify(alloc, read_code(alloc, row)?) {
        Ok(verified) => {
            let data = request(alloc, row.cell(3), row.cell(4))?;
            accepted(alloc, &verified, &data)
        }
        Err(error) => refused(alloc, &error),
    }
}

/// The same where the request, with headers and a body, stands before the code.
pub fn run_over(alloc: Global, row: &Row) -> Result<String, AllocError> {
    match verify(
        alloc,
        code_of(alloc, row.cell(4), row.cell(5), row.cell(6))?,
    ) {
        Ok(verified) => accepted(alloc, &verified, &request_with_body(alloc, row)?),
        Err(error) => refused(alloc, &error),
    }
}

fn refused(alloc: Global, error: &VerifyError) -> Result<String, AllocError> {
    match error {
        VerifyError::CodeRefused { code, index, rule } => {
            let mut cells = Cells::new(alloc);
            add_shown(alloc, &mut cells, rule)?;
            add_shown(alloc, &mut cells, *index)?;
            add_shown(alloc, &mut cells, code.instrs().len())?;
            cells.finish()
        }
        VerifyError::OutOfMemory { .. } => Err(AllocError),
    }
}

fn accepted(alloc: Global, verified: &Verified, data: &RequestData) -> Result<String, AllocError> {
    run_cells(alloc, verified.budget(), &run(alloc, verified, data)?)
}

fn read_code(alloc: Global, row: &Row) -> Result<Code, AllocError> {
    code_of(alloc, row.cell(0), row.cell(1), row.cell(2))
}

fn code_of(alloc: Global, instrs: &str, texts: &str, paths: &str) -> Result<Code, AllocError> {
    Ok(Code::new(
        read_instrs(alloc, instrs)?,
        read_texts(alloc, texts)?,
        read_paths(alloc, paths)?,
    ))
}

fn read_instrs(alloc: Global, text: &str) -> Result<Vec<Instr>, AllocError> {
    let mut instrs = Vec::new(alloc);
    for word in text.split(';') {
        let (name, operand) = parts(word.trim());
        if let Some(instr) = read_instr(name.as_bytes(), operand) {
            instrs.push(instr)?;
        }
    }
    Ok(instrs)
}

// By the letters in which the names differ.
fn read_instr(name: &[u8], operand: &str) -> Option<Instr> {
    match name {
        [b'S', ..] => Some(Instr::Show),
        [b'P', ..] => Some(Instr::Print),
        [b'H', ..] => Some(Instr::Halt),
        [b'E', b's', ..] => Some(Instr::Escape),
        [b'C', ..] => Some(Instr::Call(Helper::from_name(operand)?)),
        [b'N', b'u', ..] => Some(Instr::Number(operand.parse::<i64>().ok()?)),
        [b'T', b'r', ..] => Some(Instr::Truth(operand == "true")),
        [b'T', _, b's', ..] => Some(Instr::Test),
        [b'I', b't', ..] => item(operand),
        _ => with_index(name, index(operand)?),
    }
}

fn item(operands: &str) -> Option<Instr> {
    let (depth, path) = operands.split_once(' ')?;
    Some(Instr::Item(index(depth)?, index(path)?))
}

fn with_index(name: &[u8], index: usize) -> Option<Instr> {
    match name {
        [b'E', b'm', ..] => Some(Instr::Emit(index)),
        [b'E', ..] => Some(Instr::Each(index)),
        [b'N', ..] => Some(Instr::Next(index)),
        [b'I', ..] => Some(Instr::Index(index)),
        [b'K', ..] => Some(Instr::Key(index)),
        [b'F', ..] => Some(Instr::First(index)),
        [b'L', ..] => Some(Instr::Last(index)),
        [b'R', ..] => Some(Instr::Root(index)),
        [b'T', ..] => Some(Instr::Text(index)),
        [b'J', ..] => Some(Instr::Jump(index)),
        [b'B', ..] => Some(Instr::Branch(index)),
        _ => None,
    }
}

fn read_texts(alloc: Global, text: &str) -> Result<Vec<CodeText>, AllocError> {
    let mut texts = Vec::new(alloc);
    for entry in text.split('|') {
        texts.push(CodeText::read(alloc, String::from_str(alloc, entry)?)?)?;
    }
    Ok(texts)
}

fn read_paths(alloc: Global, text: &str) -> Result<Vec<Path>, AllocError> {
    let mut paths = Vec::new(alloc);
    for entry in text.split('|') {
        paths.push(read_path(alloc, entry)?)?;
    }
    Ok(paths)
}

fn read_path(alloc: Global, text: &str) -> Result<Path, AllocError> {
    let mut steps = Vec::new(alloc);
    if text != "this" {
        for word in text.split('.') {
            steps.push(read_step(alloc, word)?)?;
        }
    }
    Ok(Path::new(steps))
}

fn read_step(alloc: Global, word: &str) -> Result<Step, AllocError> {
    if let Some(index) = number(word) {
        return Ok(Step::Index(u32::try_from(index).unwrap_or(u32::MAX)));
    }
    Step::named(alloc, word.trim_matches('\''))
}
