//! A reader and writer that ends after its number of turns, so that a loop over the bytes of a connection ends.
#![tactic(auto)]

pub mod counted;
