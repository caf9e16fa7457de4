// Comparing the receipts of all seats with the book's history.
ghost use Rattle.std.specs.Prelude.{◌≡◌, IfErr, IfOk, None};
ghost use Rattle.shared_book.specs.Settled.{AreSettled, AreUnsettled};

use crate::origin::Origin;
use crate::seat::Seat;
use crate::settled::{SettleRefusal, Settled};
use crate::shared_book::SharedBook;
use std::alloc::Global;
use std::sync::Wait;

/// Why seats aren't settled, with the book and the seats.
#[derive(Drop)]
pub struct SettleError<L: Origin> {
    pub reason: SettleRefusal,
    pub shared: SharedBook<L>,
    pub seats: Vec<Seat<L>>,
    /// The one seat of `run_scripts`, where there was no memory for a list.
    pub alone: Option<Seat<L>>,
}

/// Compares the numbers of all seats' receipts with the book's history. Where they are those of its calls, the seats
/// leave, the history is over, and the receipts are given by their numbers; else book and seats are handed back.
pub fn settle<L: Origin, R: Wait>(
    rt: &R,
    alloc: Global,
    shared: SharedBook<L>,
    seats: Vec<Seat<L>>,
) -> Result<Settled, SettleError<L>>
    ensures settled { IfOk result (AreSettled L.origin L.parts L.book seats.items) }
    ensures handed_back { IfErr result (λ error. (error.seats.items ≡ seats.items) × (error.alone ≡ None)) }
    ensures why { IfErr result (λ error. AreUnsettled L.origin L.parts L.book seats.items error.reason) }
{
    let settled = shared.lock(rt).settle(rt, alloc, seats);
    match settled {
        Ok(settled) => Ok(settled),
        Err((reason, seats)) => Err(SettleError {
            reason,
            shared,
            seats,
            alone: None,
        }),
    }
}
