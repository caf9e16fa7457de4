// The book that is shared.
ghost use Rattle.std.specs.Prelude.{◌≡◌, ◌<◌, ◌∷◌, [], IfOk};
ghost use Rattle.shared_book.specs.Held.{new_seat};
ghost use Rattle.shared_book.specs.Reading.{IsReadOnce};
ghost use Rattle.shared_history.specs.Entries.{opening};

use crate::book_read::ReadAnswer;
use crate::history::OpenedHistory;
use crate::locked::Locked;
use crate::origin::Origin;
use crate::seat::Seat;
use request_journal::read::BookRead;
use std::alloc::{AllocError, Global};
use std::hint::spin_loop;
use std::sync::ledger::Blank;
use std::sync::{Arc, Mutex, MutexGuard, Wait};
use stub_book::book::Book;

// How often a lock that is taken is tried again before its thread may fall asleep.
const TRIES: u32 = 200;

/// A book that several threads share, each with an owner of its own.
pub struct SharedBook<L: Origin> {
    locked: Arc<Mutex<Locked<L>>>,
}

// Written out, so that a caller's proof sees one call and not the drop of each part.
impl<L: Origin> Drop for SharedBook<L> {
    fn drop(self) {
        let SharedBook { locked: _locked } = self;
    }
}

/// The history of a book that is to be shared.
pub fn open_history<R: Wait>(rt: &R, book: &Book) -> OpenedHistory
    ensures { result.1 ≡ opening book.now ∷ [] }
{
    OpenedHistory::new(rt, book)
}

impl<L: Origin> SharedBook<L> {
    /// Shares a book, with the history that was opened for it, and gives the first seat, which has all `parts` of the
    /// ledger.
    pub fn new(
        alloc: Global,
        blank: Blank,
        parts: u64,
        opened: OpenedHistory,
        book: Book,
    ) -> Result<(SharedBook<L>, Seat<L>), AllocError>
        requires name { blank.name ≡ L.name }
        requires ledger { blank.parts ≡ L.parts }
        requires parts { parts ≡ L.parts }
        requires some { 0 < parts }
        requires history { opened.0 ≡ L.book }
        requires opened { opened.1 ≡ opening book ∷ [] }
        requires origin { book ≡ L.origin }
        ensures { IfOk result (λ shared. shared.1 ≡ new_seat 0 (opening L.origin ∷ []) parts) }
    {
        let (entries, share) = blank.open::<L>();
        let (history, place) = opened.named::<L>();
        let locked = Arc::new(
            alloc,
            Mutex::new(Locked::new(book, history, entries, parts)),
        )?;
        Ok((SharedBook { locked }, Seat::new(alloc, share, place, parts)))
    }

    /// Another owner of the same book. Takes no memory.
    pub fn try_clone(&self) -> Result<SharedBook<L>, AllocError> {
        Ok(SharedBook {
            locked: Arc::try_clone(&self.locked)?,
        })
    }

    /// Reads the book as it is at some point during the call, for who has no seat. It enters nothing, so nothing says
    /// when that was.
    pub fn peek<R: Wait>(
        &self,
        rt: &R,
        alloc: Global,
        asked: BookRead,
    ) -> Result<ReadAnswer, AllocError>
        ensures { IfOk result (IsReadOnce L.origin L.book asked) }
    {
        self.lock(rt).peek(alloc, asked)
    }

    // Takes the lock. It is tried for a while, since a call holds it for less time than it takes to wake a thread.
    pub(crate) fn lock<R: Wait>(&self, rt: &R) -> MutexGuard<'_, Locked<L>> {
        for _ in 0..TRIES {
            if let Some(guard) = self.locked.try_lock() {
                return guard;
            }
            spin_loop();
        }
        self.locked.lock(rt)
    }
}
