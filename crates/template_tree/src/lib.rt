// Reads a text as a template: a tree of pieces of text and of what tags show. What a template means is
// `specs/Meaning.antt`; its code is `template_compile`'s.
#![tactic(auto)]

pub mod error;
pub mod escape;
pub mod laws;
mod nest;
pub mod node;
pub mod parser;
mod tags;
pub mod template;
mod tokens;
