//! Recordings without a book, their mappings and their HAR documents.

mod exchanges;
pub mod groups;
pub mod hars;
pub mod mappings;
pub mod recordings;
