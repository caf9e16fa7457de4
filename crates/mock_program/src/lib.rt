//! The commands of `mock`, for the program and for tests: which command the arguments ask for, what it writes, and its
//! exit status. It uses `mapping_commands`, `template_machine` and `request_data`. Its contracts cite
//! `specs/CommandLine.antt` (which arguments ask for what), `Commands` (what a command does) and `Rendering` (what
//! `mock render` prints).
#![tactic(auto)]

pub mod arguments;
pub mod command_line;
mod options;
mod parser;
pub mod render;
mod request_options;
