// A history that was just opened.
ghost use Rattle.std.specs.Prelude.{◌≡◌, [], ◌∷◌};
ghost use Rattle.shared_history.specs.Entries.{opening};
ghost use Rattle.shared_history.specs.History.{IsHistory};
ghost use Rattle.shared_history.specs.Seal.{IsSeen};

use crate::history::{History, Whole};
use crate::law::{Head, Log};
use crate::line::Ask;
use crate::naming::Naming;
use crate::rule::Rule;
use crate::seat::{Holder, Seat};
use crate::steps::{add, draw};
use logbook::{Pen, Seen, Start, Word};
use std::marker::{Model, PhantomData};
use std::sync::Wait;

/// A history that was just opened, which has no name yet. Contracts see which book it is, and the origin.
#[derive(Drop)]
pub struct Opened<O, E, C: Rule<O, E>> {
    head: Head<O, E, C>,
    seen: Log<O, E, C>,
    turn: Pen,
}

impl<O, E, C: Rule<O, E>> Model for Opened<O, E, C> {
    ghost use Rattle.std.specs.Coded.{coded×};
    ghost use Rattle.logbook.specs.Pages.{Book as HistoryName, book_coded};
    ghost use Rattle.shared_history.specs.Inner.Codes.{log_code};
    ghost use Rattle.shared_history.specs.Inner.Kept.{IsOpened};
    ghost use Rattle.shared_history.specs.Inner.Lines.{entries_of};
    ghost use Rattle.shared_history.specs.declared.entry.Entry.{Entry};
    ghost use Rattle.std.specs.Prelude.{List};

    ghost Value = { HistoryName × List (Entry O E) };

    ghost coded = { coded× book_coded (log_code O.code E.code) };

    ghost view = { λ o. (o.seen.book, entries_of o.seen.log) };

    ghost invariant = { λ o. IsOpened C.may o.head o.seen.book o.seen.log o.turn.book o.turn.nib };
}

impl<O, E, C: Rule<O, E>> Opened<O, E, C> {
    /// A history with this origin.
    pub fn new<R: Wait>(rt: &R, origin: &O) -> Opened<O, E, C>
        ensures { result.1 ≡ opening origin.now ∷ [] }
    {
        let (mut seen, mut first, _second) = Seen::open(Start::alone(), 0, 0);
        let head = Word::tracked(0, &mut first);
        let mut turn = draw(&head, &seen);
        let next = draw(&head, &seen);
        add(
            rt,
            &head,
            0,
            &mut seen,
            0,
            Ask::Opened(origin),
            &mut turn,
            &next,
            &next,
        );
        Opened {
            head,
            seen,
            turn: next,
        }
    }

    /// The history under a name, and its first seat, which has the number 0.
    pub fn named<J: Naming>(self) -> (History<O, E, C, J>, Seat<O, E, C, J>)
        requires { self.0 ≡ J.book }
        ensures history { result.0 ≡ self.1 }
        ensures number { result.1.number ≡ 0 }
        ensures front { result.1.seen ≡ self.1 }
        ensures legal { IsHistory C.may self.1 }
        ensures seen { IsSeen C.may J.book self.1 }
    {
        let Opened { head, seen, turn } = self;
        let again = seen.again();
        (
            History {
                whole: Whole {
                    head,
                    count: 1,
                    seen,
                },
                seats: 1,
                of: PhantomData,
            },
            Seat {
                holder: Holder {
                    number: 0,
                    count: 1,
                    seen: again,
                    turn,
                },
                of: PhantomData,
            },
        )
    }
}
