// Does a value meet a value matcher: equal to, contains, matches a pattern and their negations, absent.
// Its contracts cite `specs/Matching.antt` (when a value meets a matcher), `specs/Patterns.antt` (what a pattern means)
// and `specs/Refusal.antt` (which matchers can be built).
#![tactic(auto)]

mod automaton;
pub mod error;
mod pattern;
pub mod value_matcher;
pub mod value_spec;
