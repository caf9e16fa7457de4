//! Tables of cases for the programs that compare what calls answer with what is wanted: a file for each table, a case
//! on each line. A program says what its tables are and what is answered to a row (`CaseTable`); `compare_all` reads
//! the files, compares and reports. Beside these are requests, exchanges that are recorded, and mappings, made of the
//! words of a cell.
#![tactic(auto)]

pub mod cells;
pub mod compare;
pub mod exchanges;
pub mod mappings;
pub mod octets;
pub mod requests;
pub mod row;
pub mod words;
