// Stub mappings as JSON (WireMock's documentation, "Stubbing"). `read` gives the mapping that a document spells, or the
// mappings of a document that has several; `write` gives a mapping's JSON. Its contracts cite `specs/Reading.antt`
// (what a value spells, field by field), `specs/Spelling.antt` (which mapping that is, and the first error where it is
// none), `specs/Documents.antt` (documents of several mappings), `specs/Errors.antt` (codes) and `specs/Writing.antt`
// (the JSON of a mapping). `read_request` gives the matcher that a document is, by
// `specs/RequestRefusal.antt` and `RequestErrors`.
#![tactic(auto)]

// Mappings.
pub mod draft;
pub mod error;
mod judge;
pub mod read;
mod read_value;
pub mod write;

// Request matchers alone.
pub mod read_request;
pub mod request_error;
