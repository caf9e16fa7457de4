//! Requests that are forwarded: to peers that a script plays, and to an upstream that arguments name.

pub mod cases;
pub mod one;
mod outcome;
mod peer;
