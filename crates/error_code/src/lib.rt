// The codes of errors that users see, on the command line and in error bodies: for each its number, its title and the
// HTTP status of an answer that reports it. Errors of all crates name their code from here. Its contracts cite
// `specs/Codes.antt`, which is the table.
#![tactic(auto)]

pub mod error_code;
