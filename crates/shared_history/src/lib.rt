//! The one history of a thing that several threads share, which exists in proofs alone: which seat made each entry,
//! and what it did. At run time it is a word, its length.
#![tactic(auto)]

pub mod entry;
pub mod front;
pub mod history;
pub mod law;
pub mod line;
pub mod naming;
pub mod opened;
pub mod rule;
pub mod seat;
mod steps;
