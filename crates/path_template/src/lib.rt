//! Path templates: paths whose segments may be names in braces, as `/orders/{id}`. Which texts are templates
//! (`specs/Template.antt`), which paths match one, and what its names are bound to (`specs/Matching.antt`). It uses
//! the definitions of `mock_request` for the segments of a path.
#![tactic(auto)]

pub mod error;
pub mod path_template;

// The parts of a template.
mod names;
mod segments;
mod walk;

// What holds of all segments.
pub mod laws;
