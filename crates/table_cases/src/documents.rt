//! Mapping documents, the mappings and matchers that they give, path templates, and requests.

mod answers;
pub mod mappings;
pub mod matchers;
pub mod path_templates;
pub mod ready;
mod requests;
pub mod snapshots;
