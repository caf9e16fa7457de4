// The values that templates, JSON documents and requests are made of: a finite tree (`Data`), the steps that lead
// into it (`Step`, `Path`), and its text. JSON strings are escaped as the crate `json` does.
//
// Contracts cite `specs/Tree.antt` (the tree of a `Data`), `Json`, `Print`, `Parts`, `LookUp`, `Digits`,
// `WellFormed` (the rules that each value keeps), `RequestData` and `Capped`.
#![tactic(auto)]

// Texts and steps.
pub mod compact_text;
pub mod digits;
pub mod step;

// The value, and what is asked of it.
pub mod data;
mod draft;
pub mod look_up;
pub mod parts;
mod plain;
pub mod print;
pub mod size;

// The root that a template sees.
pub mod request_data;

// What holds of all values.
pub mod laws;
