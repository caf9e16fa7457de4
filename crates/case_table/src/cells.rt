//! Cells of an answer, built piece by piece.

use std::alloc::{AllocError, Global};

/// Text that remembers where memory ran out, so that the calls that append to it have no error.
#[derive(Drop)]
pub struct Cells {
    alloc: Global,
    text: String,
    is_out_of_memory: bool,
}

impl Cells {
    pub fn new(alloc: Global) -> Cells {
        Cells {
            alloc,
            text: String::new(alloc),
            is_out_of_memory: false,
        }
    }

    /// Appends a TAB and the cell.
    pub fn add_cell(&mut self, cell: &str) {
        self.add("\t");
        self.add(cell);
    }

    /// Appends to the last cell.
    pub fn add(&mut self, text: &str) {
        if self.text.push_str(text).is_err() {
            self.is_out_of_memory = true;
        }
    }

    pub fn add_number(&mut self, number: u32) {
        match format!(in self.alloc; "{number}") {
            Ok(text) => self.add(text.as_str()),
            Err(_error) => self.is_out_of_memory = true,
        }
    }

    /// The text, if memory sufficed.
    pub fn finish(self) -> Result<String, AllocError> {
        if self.is_out_of_memory {
            return Err(AllocError);
        }
        Ok(self.text)
    }
}
