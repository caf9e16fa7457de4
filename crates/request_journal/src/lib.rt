// The past of a book of stub mappings: the events that changed it and their answers, and what they mean: which
// mappings are live, in which state each scenario is, which recording there is, what the journal shows, and which
// mapping is chosen for a request. `specs/Past.antt`, `specs/Live.antt`, `specs/State.antt`, `specs/Recording.antt`,
// `specs/Journal.antt`, `specs/Choice.antt` and `specs/Legal.antt` say it, for the contracts of the crates above.
#![tactic(auto)]

pub mod entry;
pub mod event;
pub mod event_memory;
pub mod input;
pub mod limits;
pub mod mapping;
pub mod read;
pub mod shared_event;
pub mod shared_request;
