// What one tag of a template says: the value that it prints, the block that it opens, its else or its close. Where tags
// are in a text, and what a template is as a whole, are `template_tree`'s.
#![tactic(auto)]

// What tags say, and the blocks that are open.
pub mod expression;
pub mod level;
pub mod tag;

// The parts of a tag, lowest first.
mod blocks;
mod calls;
mod items;
mod nest;
mod word;
mod word_text;

// What holds of the definitions.
pub mod laws;
