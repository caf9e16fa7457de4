//! Which of a request's data a template looks at, so that no more of it need be made. Contracts cite
//! `specs/Needed.antt`: what is needed, and when two roots of data are alike in it.
#![tactic(auto)]

mod field_set;
pub mod needed;
pub mod request_field;
