//! The stack code that a template is compiled to: its instructions, and, as a definition, the machine that runs them.
//! It uses `data_tree`, whose values the machine prints, and `helper_set`, whose values its stack holds. Which code may
//! run, and what a run costs at most, is said in `code_rules`.
#![tactic(auto)]

pub mod code;
pub mod code_text;
pub mod flow;
pub mod instr;
pub mod laws;
pub mod limits;
pub mod listing;
pub mod popped;
