// The mappings that a list of exchanges gives: those that can be mappings, equal requests as a scenario. Its contracts
// cite `recorder`'s `specs/Stubs.antt`.
#![tactic(auto)]

mod kept;
mod request;
mod response;
mod scenario;
pub mod stubs;
mod utf8;
