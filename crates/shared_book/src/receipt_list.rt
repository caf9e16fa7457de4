// Receipts in the order of their calls, which let go of their events.
ghost use Rattle.std.specs.Prelude.{◌≡◌, ◌≤◌, ◌∷◌, [], All, IfErr, IfOk};
ghost use Rattle.std.specs.Prelude.{drop, length, map, take, vec_capacity, vec_len};
ghost use Rattle.shared_book.specs.Held.{LetsGo};
ghost use Rattle.shared_book.specs.Inner.Seat.{free_line, line_of};
ghost use Rattle.shared_book.specs.Receipts.{numbers_of};

use crate::numbers::Numbers;
use crate::receipt::Receipt;
use crate::short_lists::ShortLists;
use std::alloc::Global;

/// Receipts in the order of their calls. Of the first ones, whose events are free, only the numbers are kept.
#[derive(Drop)]
pub(crate) struct ReceiptList {
    pub(crate) let_go: Numbers,
    pub(crate) held: Vec<Receipt>,
}

impl ReceiptList {
    pub(crate) fn new(alloc: Global) -> ReceiptList
        ensures let_go { result.let_go ≡ [] }
        ensures held { result.held.items ≡ [] }
    {
        ReceiptList {
            let_go: Numbers::new(alloc),
            held: Vec::new(alloc),
        }
    }

    /// How many receipts it has.
    pub(crate) fn len(&self) -> usize
        ensures { result ≡ length (numbers_of (line_of self.now)) }
    {
        self.let_go.len() + self.held.len()
    }

    /// Lets go of the events of its first receipts, up to this number, where there is memory for their numbers. Whether
    /// there was.
    pub(crate) fn let_go(&mut self, last: u64) -> bool
        ensures line { LetsGo (λ n. n ≤ last) (line_of self.old) (line_of self.new) }
        ensures capacity { vec_capacity self.new.held ≡ vec_capacity self.old.held }
        ensures length { vec_len self.new.held ≤ vec_len self.old.held }
    {
        let count = first_up_to(self.held.as_slice(), last);
        if let Err(_error) = self.let_go.add_receipts(&self.held.as_slice()[..count]) {
            return false;
        }
        drop_first(&mut self.held, count);
        true
    }

    /// As short lists, where it holds no receipt, has 1 to 255 numbers, and there is memory for that; or the list. Frees
    /// what such lists don't need.
    pub(crate) fn into_short(self) -> Result<ShortLists, ReceiptList>
        ensures ok { IfOk result (λ lists. map free_line lists ≡ line_of self ∷ []) }
        ensures err { IfErr result (λ same. line_of same ≡ line_of self) }
    {
        if !self.held.is_empty() {
            return Err(self);
        }
        let ReceiptList { let_go, held } = self;
        match ShortLists::one(*held.allocator(), let_go) {
            Ok(lists) => {
                let mut lists = lists;
                lists.shrink();
                Ok(lists)
            }
            Err(let_go) => Err(ReceiptList { let_go, held }),
        }
    }

    /// Frees the memory of the receipts, and what the numbers don't need, where it holds no receipt.
    pub(crate) fn shrink(&mut self)
        ensures { line_of self.new ≡ line_of self.old }
    {
        if self.held.is_empty() {
            self.let_go.shrink();
            self.held = Vec::new(*self.held.allocator());
        }
    }
}

// How many of the first receipts have numbers up to this one.
fn first_up_to(receipts: &[Receipt], last: u64) -> usize
    ensures within { result ≤ length receipts.now }
    ensures all { All (λ r. r.number ≤ last) (take result receipts.now) }
{
    for i in 0..receipts.len() {
        if receipts[i].number > last {
            return i;
        }
    }
    receipts.len()
}

// Drops the first receipts. Takes no memory, and frees none but theirs.
fn drop_first(receipts: &mut Vec<Receipt>, count: usize)
    requires { count ≤ vec_len receipts.old }
    ensures items { receipts.new.items ≡ drop count receipts.old.items }
    ensures capacity { vec_capacity receipts.new ≡ vec_capacity receipts.old }
    ensures length { vec_len receipts.new ≤ vec_len receipts.old }
{
    receipts.rotate_left(count);
    receipts.truncate(receipts.len() - count);
}
