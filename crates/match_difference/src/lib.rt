//! Why doesn't a mapping answer a request? The conditions of the mapping that the request doesn't meet, each with what
//! was found instead. The contracts cite `specs/Conditions.antt` (the conditions of a mapping, and when each is met),
//! `specs/Unmet.antt` (those that aren't) and `specs/Refusal.antt` (which conditions may be refused).
#![tactic(auto)]

pub mod condition;
pub mod conditions;
pub mod difference;
pub mod found;
pub mod look_up;
mod met;
mod not_json;
pub mod read_request;
pub mod said;
