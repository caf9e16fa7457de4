// The book: its history, the live mappings, the states of scenarios and the recording. Contracts see its past alone;
// what it keeps beside the history agrees with that at every moment. Each call that is accepted adds the one event that
// the past demands, and a call that is refused changes nothing. Its contracts cite `specs/Growth.antt` (one more event)
// and `specs/Refusals.antt` (what is refused, and why), over the definitions of `request_journal`.
#![tactic(auto)]

pub mod accepted;
mod apply;
pub mod book;
mod checks;
pub mod error;
mod mappings;
mod prepared;
mod recordings;
mod resets;
mod scenarios;
mod serve;
mod stop;
