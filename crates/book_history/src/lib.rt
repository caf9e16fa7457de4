// The history of a book: the events that were accepted, with their numbers, from the last checkpoint on, and what the
// journal shows of them. Contracts see it as a past (`specs/Past.antt` of `request_journal`).
#![tactic(auto)]

pub mod error;
mod events;
pub mod history;
mod journal;
mod known;
mod parts;
pub mod pick;
