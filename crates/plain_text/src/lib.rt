// Texts, runs of bytes and lists that contracts see as what they hold, so that a clause can compare a type that holds
// one.
#![tactic(auto)]

pub mod items;
pub mod octets;
pub mod plain;
pub mod text;
