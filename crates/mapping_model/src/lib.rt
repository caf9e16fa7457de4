// What a stub mapping is: its id, its priority and scenario, the requests that it matches and the response that it
// gives; and what a reply is. What a mapping can't serve can't be built: a status is 200 to 599, a header's name a
// token, a response has 100 header lines at most, a template is a verified program. Its contracts cite
// `specs/MappingId.antt` (generated ids), `specs/Priority.antt`, `specs/Status.antt` and `specs/Body.antt`.
#![tactic(auto)]

pub mod body_pattern;
pub mod field_name;
pub mod header_lines;
pub mod mapping_id;
pub mod mapping_spec;
pub mod named_matcher;
pub mod reply;
pub mod request_spec;
pub mod response_spec;
mod same_option;
pub mod scenario_spec;
pub mod status;
pub mod template_text;
pub mod url_spec;
