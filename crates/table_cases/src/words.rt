//! Texts, bytes and numbers of cells.

use case_table::cells::Cells;
use plain_text::text::Text;
use std::alloc::{AllocError, Global};

pub fn text_of(alloc: Global, text: &str) -> Result<Text, AllocError> {
    Ok(Text::from(String::from_str(alloc, text)?))
}

/// A byte for each character (ISO-8859-1).
pub fn latin1(alloc: Global, text: &str) -> Result<Vec<u8>, AllocError> {
    let mut bytes = Vec::new(alloc);
    for letter in text.chars() {
        bytes.push(u8::try_from(u32::from(letter)).unwrap_or(0))?;
    }
    Ok(bytes)
}

pub fn add_number(alloc: Global, cells: &mut Cells, number: u64) -> Result<(), AllocError> {
    cells.add(format!(in alloc; "{number}")?.as_str());
    Ok(())
}
