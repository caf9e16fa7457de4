//! What a command of `mock` writes, whichever it is: texts to a writer that may fail, the lines of errors and of
//! budgets, and what it reads, which is a file. Its contracts cite `specs/Output.antt` (what a writer holds after a
//! write that may fail), `Lines` (the lines that are written) and `Files` (what is known of a file); those of commands
//! cite `Ends` (how a command ends).
#![tactic(auto)]

pub mod error;
pub mod files;
pub mod lines;
pub mod output;
pub mod status;
