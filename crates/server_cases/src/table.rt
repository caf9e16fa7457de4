//! The table of schedules.

use crate::worlds;
use case_table::compare::CaseTable;
use case_table::row::Row;
use std::alloc::{AllocError, Global};

/// Schedules over a book, a row each.
#[derive(Clone, Copy)]
pub struct Schedules;

impl CaseTable for Schedules {
    fn file(self) -> &'static str {
        "worlds.tsv"
    }

    fn answer(self, alloc: Global, row: &Row) -> Result<String, AllocError> {
        worlds::replies(alloc, row)
    }
}
