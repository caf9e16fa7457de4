//! Well-formed code is safe: a law over the rules of code and the machine, with no program code. The law stands on a
//! function that does nothing; `specs/Safe.antt` has what it speaks of.
#![tactic(auto)]

pub mod laws;
