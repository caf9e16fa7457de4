// JSON texts and values: the value of a text, the text of a value, and paths into values (`$.a[0]`). Texts are read by
// the toolchain's `json`, and by its `serde_json` where a number in them isn't whole.
//
// Contracts cite `specs/Reading.antt` (which tree a text is), `Writing` (which trees read back) and `Path` (which text
// spells which path).
#![tactic(auto)]

// Texts to values, and back.
mod direct;
mod judged;
pub mod part;
pub mod read;
pub mod write;

// Paths.
pub mod error;
pub mod json_path;
mod next_step;

// What holds of all texts.
pub mod laws;
