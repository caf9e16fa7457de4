// What a checkpoint has dropped.
ghost use Rattle.std.specs.Prelude.{◌≡◌};

use stub_book::book::Book;

/// The number up to which a checkpoint has dropped events.
pub(crate) fn base_of(book: &Book) -> u64
    ensures { result ≡ book.now.base.number }
{
    book.event_count() - book.history().len() as u64
}
