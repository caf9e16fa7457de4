// What came of a message at the book.
ghost use Rattle.std.specs.Prelude.{◌≡◌, MatchOption};
ghost use Rattle.hyper_service.specs.Inner.Outcome.{HasNoNew, IsLastNumber, IsNew};

use shared_book::origin::Origin;
use shared_book::receipt::Receipt;
use shared_book::seat::Seat;

/// What came of a message at the book: the event that it made, by its receipt, and how many mappings gave way to those
/// that this event added.
#[derive(Clone, Copy, Drop)]
pub struct Outcome<'a> {
    pub receipt: &'a Receipt,
    pub replaced: u64,
}

/// The number of the seat's last receipt.
pub(crate) fn last_number<L: Origin>(seat: &Seat<L>) -> Option<u64>
    ensures { IsLastNumber seat.now.own.held result }
{
    Some(seat.receipts().last()?.number)
}

/// What the seat's last call has made, where before it the last receipt had this number: nothing where it has it still.
pub(crate) fn outcome_of<L: Origin>(seat: &Seat<L>, before: Option<u64>) -> Option<Outcome<'_>>
    ensures { MatchOption result (HasNoNew before seat.now.own.held)
        (λ outcome. IsNew before seat.now.own.held outcome.receipt.now × (outcome.replaced ≡ seat.now.replaced)) }
{
    match seat.receipts().last() {
        Some(receipt) => if before == Some(receipt.number) {
            None
        } else {
            Some(Outcome {
                receipt,
                replaced: seat.replaced(),
            })
        },
        None => None,
    }
}
