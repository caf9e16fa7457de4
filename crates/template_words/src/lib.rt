// The words of a template's tags: finds marks and closes in a text, and reads a word as a literal, as a name or as a
// path. What a tag says is `template_tags`', and what a template is, `template_tree`'s.
#![tactic(auto)]

// What is read, and why it isn't.
pub mod error;
pub mod reference;

// Marks and closes.
pub mod marks;
pub mod mode;

// Words.
pub mod literal;
pub mod names;
pub mod paths;
pub mod words;

// What holds of the definitions.
pub mod laws;
