// What a call that changes the book gives: its event, what is answered, and what it replaced.
use request_journal::input::BookAnswer;
use request_journal::shared_event::SharedEvent;

/// A change of the book that was made.
#[derive(Drop)]
pub struct Accepted {
    /// Its event, which is shared with the history.
    pub event: SharedEvent,
    pub answer: BookAnswer,
}

/// A change of the book that was made by `apply_shared`.
#[derive(Drop)]
pub struct Changed {
    /// Its event, which is shared with the history.
    pub event: SharedEvent,
    /// How many mappings gave way to one with their id that the event adds.
    pub replaced: u64,
}
