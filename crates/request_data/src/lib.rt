//! The data that templates see of a request (`request_data`), a tree of `data_tree` made of a `Snapshot` of
//! `mock_request`, or the part of it that is needed (`part_of_data`), and a bound on its size (`size_bound`). Contracts
//! cite `specs/RequestTree.antt` (the data, field by field), with `Grouped` (names with their values) and `Authority`
//! (the `host` header) as its parts, and `Part` (what is needed of it).
#![tactic(auto)]

pub mod part;
pub mod size_bound;
pub mod tree;

// The parts of the data.
mod authority;
mod fields;
mod grouped;
mod object;
mod path_data;
mod query_data;
mod runs;
mod values;
