//! Programs: templates that are compiled and verified, and the machine that runs them. It uses the parser, the compiler
//! and the verifier. `specs/Program.antt` says what a program is and what rendering it gives, `Errors` when an error is
//! true of a text; `safe_code` says what holds of all code that the verifier accepts.
#![tactic(auto)]

mod append;
mod call;
pub mod error;
mod escape;
mod held;
mod machine;
mod needs;
mod open_loop;
pub mod program;
pub mod run;
mod slot;
mod turns;
mod value;
