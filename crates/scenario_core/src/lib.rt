// The states of scenarios: which state each is in, and the calls that move and reset them.
// Its contracts cite `specs/Scenarios.antt` (a scenario's state).
#![tactic(auto)]

mod entries;
pub mod scenarios;
