//! Which stack code may run, and what a run of it costs at most: the rules V1 to V13, the bounds of what instructions
//! push, and the budget of code. They are definitions (`specs/`) and laws over them; `code_verifier` decides by them.
//! The law that its budgets rest on, of what a run through nested loops costs, knows numbers alone.
#![tactic(auto)]

pub mod laws;
pub mod loop_law;
pub mod rule;
