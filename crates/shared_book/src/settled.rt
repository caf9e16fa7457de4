// What all seats of a book say together.
use crate::receipt::Receipt;
use request_journal::shared_event::SharedEvent;

/// The number of the book's last event, and the receipts of all seats by their numbers.
#[derive(Drop)]
pub struct Settled {
    pub events: u64,
    pub receipts: Vec<Receipt>,
}

/// Why seats aren't settled.
#[derive(Drop)]
pub enum SettleRefusal {
    /// The seats don't have all parts of the ledger.
    SeatsMissing,
    /// The receipts aren't those of one history, as the number shows. `kept` is the event that the book keeps under it.
    Mismatch {
        number: u64,
        kept: Option<SharedEvent>,
    },
    OutOfMemory,
}
