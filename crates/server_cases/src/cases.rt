//! Calls and messages of one and two threads over shared books: what each case shows, in words.
ghost use Rattle.std.specs.Prelude.{◌≡◌, ◌≤◌, ◌∷◌, []};
ghost use Rattle.shared_history.specs.Entries.{opening};

use crate::answered::answered;
use crate::books;
use crate::cleared::cleared;
use crate::counted::counted;
use crate::fronts::fronts;
use crate::full::full;
use crate::let_go::let_go;
use crate::scripts::scripts;
use crate::two_threads::two_threads;
use crate::versions::versions;
use case_table::cells::Cells;
use shared_book::history::OpenedHistory;
use shared_book::origin::Origin;
use shared_book::seat::Seat;
use shared_book::shared_book::{SharedBook, open_history};
use std::alloc::{AllocError, Global};
use std::marker::Brand;
use std::sync::Wait;
use std::sync::ledger::Blank;
use std::thread::Threads;
use stub_book::book::Book;

/// Into how many parts each ledger is cut.
const PARTS: u64 = 4_294_967_296;

#[derive(Clone, Copy)]
pub enum Case {
    TwoThreads,
    Scripts,
    Versions,
    Fronts,
    Cleared,
    LetGo,
    Answered,
    Counted,
    Full,
}

impl Case {
    fn name(self) -> &'static str {
        match self {
            Case::TwoThreads => "two threads: ",
            Case::Scripts => "scripts: ",
            Case::Versions => "versions: ",
            Case::Fronts => "fronts: ",
            Case::Cleared => "cleared: ",
            Case::LetGo => "let go: ",
            Case::Answered => "answered: ",
            Case::Counted => "counted: ",
            Case::Full => "full: ",
        }
    }

    // The number at which its book is opened.
    fn opening(self) -> u64 {
        match self {
            Case::Full => books::LAST,
            _ => 0,
        }
    }
}

/// What a case shows, on a book of its own.
pub fn play<R: Threads + Wait + Sync>(
    rt: &R,
    alloc: Global,
    case: Case,
) -> Result<String, AllocError> {
    let book = books::book(alloc, case.opening())?;
    let opened = open_history(rt, &book);
    let blank = Blank::new(PARTS);
    play_on::<Brand, R>(rt, alloc, case, blank, PARTS, opened, book)
}

fn play_on<L: Origin + Send + Sync, R: Threads + Wait + Sync>(
    rt: &R,
    alloc: Global,
    case: Case,
    blank: Blank,
    parts: u64,
    opened: OpenedHistory,
    book: Book,
) -> Result<String, AllocError>
    requires name { blank.name ≡ L.name }
    requires ledger { blank.parts ≡ L.parts }
    requires parts { parts ≡ L.parts }
    requires some { 3 ≤ parts }
    requires history { opened.0 ≡ L.book }
    requires opened { opened.1 ≡ opening book ∷ [] }
    requires origin { book ≡ L.origin }
{
    let (shared, seat) = SharedBook::<L>::new(alloc, blank, parts, opened, book)?;
    let mut cells = Cells::new(alloc);
    cells.add(case.name());
    play_case(rt, alloc, case, &mut cells, shared, seat)?;
    cells.finish()
}

fn play_case<L: Origin + Send + Sync, R: Threads + Wait + Sync>(
    rt: &R,
    alloc: Global,
    case: Case,
    cells: &mut Cells,
    shared: SharedBook<L>,
    seat: Seat<L>,
) -> Result<(), AllocError>
    requires { 3 ≤ seat.parts }
{
    match case {
        Case::TwoThreads => two_threads(rt, alloc, cells, shared, seat),
        Case::Scripts => scripts(rt, alloc, cells, shared, seat),
        Case::Versions => versions(rt, alloc, cells, shared, seat),
        Case::Fronts => fronts(rt, alloc, cells, shared, seat),
        Case::Cleared => cleared(rt, alloc, cells, shared, seat),
        Case::LetGo => let_go(rt, alloc, cells, shared, seat),
        Case::Answered => answered(rt, alloc, cells, shared, seat),
        Case::Counted => counted(rt, alloc, cells, shared, seat),
        Case::Full => full(rt, alloc, cells, shared, seat),
    }
}
