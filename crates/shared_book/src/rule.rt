// Which calls may follow in the history of a book.
use request_journal::event::Event;
use shared_history::rule::Rule;
use stub_book::book::Book;

/// A call may follow others where its event is the right answer after theirs.
pub struct Answers;

impl Rule<Book, Event> for Answers {
    ghost use Rattle.shared_book.specs.Reached.{MayFollow};

    ghost may = { MayFollow };
}
