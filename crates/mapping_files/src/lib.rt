//! Files of mappings of a server. The book that `mock serve` opens: with the mappings of the files that a path names, all
//! of them or those that are accepted, and its first event's number. And the mappings of a running server in a file,
//! which is written whole or not at all: `mock save`, and what `mock record` writes when it ends. Contracts cite
//! `specs/Served.antt` and `specs/Saved.antt`.
#![tactic(auto)]

mod accepted;
pub mod book;
pub mod file_text;
pub mod file_writer;
mod first_event;
pub mod recorded;
pub mod save;
pub mod server;
pub mod start;
mod store;
