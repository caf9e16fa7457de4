// The response of a mapping as JSON (WireMock's documentation, "Stubbing"). `read` gives the response that a value
// spells, with its templates as texts; `draft` compiles those; `write` gives a response's JSON. Its contracts cite
// `specs/Reading.antt` (which response a value spells), `specs/Draft.antt` (the templates of a response and the first
// of their errors) and `specs/Writing.antt` (the JSON of a response).
#![tactic(auto)]

pub mod draft;
mod header_reading;
pub mod read;
pub mod write;
