// Which requests does a mapping match? A `RequestMatcher` is built once from the matcher as it was written and answers
// for any number of requests, each taken apart once for all matchers (`ParsedRequest`). Its contracts cite
// `specs/Matching.antt` (when a request meets a matcher) and `specs/Refusal.antt` (which matchers may be refused);
// `specs/Parts/` has the same of a matcher's parts, and what a literal URL is known by.
#![tactic(auto)]

pub mod body_test;
pub mod error;
mod hashed_text;
pub mod named_test;
pub mod parsed_request;
pub mod ready_mapping;
pub mod request_matcher;
pub mod shared_spec;
pub mod url_key;
pub mod url_test;
