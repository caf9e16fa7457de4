//! What a server tells of its requests on standard error: a line for each, where that is wanted, and then also which
//! mappings come nearest to one that none matched, and by what templates were over their limits; why an admin call was
//! refused; warnings of mappings that are posted; and of which exchanges a recording made no mappings. `lines` has the
//! lines that wait to be written by a thread of their own, so that nobody waits for a slow reader; `request_log` what is
//! told; `request_line` the line of a request, by `specs/Line.antt`; `over_budget` what templates may take, by
//! `specs/Taken.antt`.
#![tactic(auto)]

pub mod lines;
mod mapping_name;
mod nearest;
mod over_budget;
mod replaced;
mod request_line;
pub mod request_log;
mod shared_names;
mod skipped;
pub mod start;
