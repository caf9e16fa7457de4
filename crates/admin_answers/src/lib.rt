// What a shared book answers to an admin call: one change or one reading of the book, and its answer. Contracts cite
// `specs/Answers.antt` (what each call is answered, and why it is refused), `specs/Replies.antt` (the reply that an
// answer is), `specs/Recordings.antt` and `specs/JsonReply.antt`.
// Long answers are a `Listing`, which is written piece by piece: lists of requests, what a search among them gives,
// lists of mappings, and the HAR document of a recording.
#![tactic(auto)]

pub mod admin_answer;
pub mod answer;
mod change;
mod entries;
pub mod error;
mod json_reply;
pub mod listing;
mod mapping_texts;
mod reads;
mod search;
