// The documents of the admin calls (WireMock's documentation, "Admin API"): the bodies that are read, and the JSON that
// is answered. Contracts cite `specs/State.antt` and `specs/Start.antt` (what a body asks for, with `Bodies`), and
// `specs/Mappings.antt`, `Requests`, `Scenarios` and `Recordings` (the JSON of each answer), with
// `Written` and `Names` as their parts, and `specs/WholeNumbers.antt` (which numbers they have).
#![tactic(auto)]

// Bodies that are read.
pub mod error;
mod names;
pub mod start;
pub mod state;

// Answers that are written.
mod grouped;
pub mod mappings;
pub mod recordings;
pub mod requests;
pub mod scenarios;
mod written;
