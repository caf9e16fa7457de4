// The admin calls.
use request_journal::input::BookInput;
use request_journal::read::BookRead;

/// What an admin call asks of the book, with what its path and its body give.
#[derive(Drop)]
pub enum AdminCall {
    Change(BookInput),
    Read(BookRead),
}
