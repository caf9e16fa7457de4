//! Decides which code may run: one pass over stack code, which keeps what is known before the next instruction
//! and no table. It uses `code_rules`, whose definitions of well-formed code, violations and budgets its
//! contracts cite; `specs/Verdict.antt` says what is known of accepted code and what an error says.
#![tactic(auto)]

mod bound;
pub mod budget;
mod cost;
mod effect;
pub mod error;
mod loops;
mod pass;
mod polynomial;
mod rules;
mod stack;
mod targets;
pub mod verified;
pub mod verify;
