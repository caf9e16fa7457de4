// Does a JSON value meet a JSON matcher: equal to an expected value, or found by a JSON path. Its contracts cite
// `specs/Matching.antt` (when a value meets a matcher) and `specs/Refusal.antt` (which matchers can't be built).
#![tactic(auto)]

mod compare;
mod counts;
pub mod error;
mod find;
pub mod json_matcher;
pub mod json_spec;
