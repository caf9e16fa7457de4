// The history of a shared book.
use crate::rule::Answers;
use request_journal::event::Event;
use shared_history::{front, history, opened, seat};
use stub_book::book::Book;

/// A beginning of the history that a seat has seen.
pub type Front<L> = front::Front<Book, Event, Answers, L>;

/// A history that was opened with a book, and isn't shared yet.
pub type OpenedHistory = opened::Opened<Book, Event, Answers>;

/// The whole history, which lies under the lock.
pub(crate) type History<L> = history::History<Book, Event, Answers, L>;

/// A seat's place in it: its number, and what it has seen.
pub(crate) type Place<L> = seat::Seat<Book, Event, Answers, L>;
