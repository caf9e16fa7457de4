//! The rows of a table: cells with a TAB between two. A cell `=>` parts what is given from what is wanted.

use std::alloc::{AllocError, Global};

/// What is given, cell by cell, and what is wanted: cells, each after a TAB.
#[derive(Drop)]
pub struct Row {
    pub given: Vec<String>,
    pub wanted: String,
}

impl Row {
    /// The given cell at that index, empty where there is none.
    pub fn cell(&self, index: usize) -> &str {
        match self.given.get(index) {
            Some(cell) => cell.as_str(),
            None => "",
        }
    }
}

/// The row of a line, if it has one: a line that is empty or begins with `#` has none. Where a line has no `=>`, what
/// is wanted is no answer, since answers begin with a TAB.
///
/// In a cell, the pictures U+2400 to U+241F and U+2421 are the control characters that they show, and parts like
/// `a × 3`, with ` + ` between two, are texts that are repeated.
pub fn read_row(alloc: Global, line: &str) -> Result<Option<Row>, AllocError> {
    if line.is_empty() || line.starts_with('#') {
        return Ok(None);
    }
    let Some((before, after)) = line.split_once("\t=>\t") else {
        return Ok(Some(Row {
            given: Vec::new(alloc),
            wanted: String::from_str(alloc, "no answer is wanted")?,
        }));
    };
    Ok(Some(Row {
        given: given(alloc, before)?,
        wanted: wanted(alloc, after)?,
    }))
}

/// Appends a TAB and the cell.
pub fn add_cell(cells: &mut String, cell: &str) -> Result<(), AllocError> {
    cells.push('\t')?;
    cells.push_str(cell)
}

fn given(alloc: Global, cells: &str) -> Result<Vec<String>, AllocError> {
    let mut given = Vec::new(alloc);
    for cell in cells.split('\t') {
        given.push(content(alloc, cell)?)?;
    }
    Ok(given)
}

fn wanted(alloc: Global, cells: &str) -> Result<String, AllocError> {
    let mut wanted = String::new(alloc);
    for cell in cells.split('\t') {
        add_cell(&mut wanted, content(alloc, cell)?.as_str())?;
    }
    Ok(wanted)
}

fn content(alloc: Global, cell: &str) -> Result<String, AllocError> {
    let mut content = String::new(alloc);
    if cell.contains(" × ") {
        for part in cell.split(" + ") {
            add_repeated(alloc, &mut content, part)?;
        }
    } else {
        add_plain(&mut content, cell)?;
    }
    Ok(content)
}

fn add_repeated(alloc: Global, content: &mut String, part: &str) -> Result<(), AllocError> {
    let (text, times) = part.rsplit_once(" × ").unwrap_or((part, "1"));
    let mut piece = String::new(alloc);
    add_plain(&mut piece, text)?;
    content.push_str(repeated(alloc, piece.as_str(), times)?.as_str())
}

fn repeated(alloc: Global, piece: &str, times: &str) -> Result<String, AllocError> {
    piece.repeat(alloc, times.parse::<usize>().unwrap_or(0))
}

fn add_plain(content: &mut String, text: &str) -> Result<(), AllocError> {
    for letter in text.chars() {
        content.push(plain(letter))?;
    }
    Ok(())
}

// The character that a picture of a control character shows.
fn plain(letter: char) -> char {
    match u32::from(letter).checked_sub(0x2400) {
        Some(control) if control < 32 => char::from_u32(control).unwrap_or(letter),
        Some(33) => '\u{7f}',
        _ => letter,
    }
}
