//! Where a mapping document is wrong, and why, in words for whoever wrote it: which value (a JSON pointer, RFC 6901),
//! what was wanted there, and what was found; and warnings of fields that are ignored or can't have the effect that was
//! meant. That a document is refused, and by which code, is `mapping_json`'s: here the first value is looked for, in
//! the order of the JSON tree, that explains the code. No contract says what is found; tables of cases do.
#![tactic(auto)]

mod budget;
mod combination;
mod fault;
mod known_ids;
mod leaf;
mod nearest_name;
pub mod notes;
pub mod numbers;
mod part;
mod pointer;
mod reasons;
mod search;
pub mod shown;
mod sought;
mod templates;
mod unknown_names;
mod warnings;
