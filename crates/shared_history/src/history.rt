// The history itself, which lies under the lock of what it is of.
ghost use Rattle.std.specs.Prelude.{◌≡◌, false};
ghost use mathlib.Core.List.{IsPrefix};
ghost use Rattle.shared_history.specs.Entries.{is_left};
ghost use Rattle.shared_history.specs.History.{HasEnded, HasLeft, IsHistory, IsWhole, MayCall, MayFollow};
ghost use Rattle.shared_history.specs.Inner.Drafts.{Writes, deed_of, silent_deed};
ghost use Rattle.shared_history.specs.Inner.Kept.{IsFront, IsSeated};
ghost use Rattle.shared_history.specs.Inner.Law.{head_of};
ghost use Rattle.shared_history.specs.Inner.Lines.{entries_of};
ghost use Rattle.shared_history.specs.Seal.{IsSeen};
ghost use Rattle.shared_history.specs.Sight.{Calls, CatchesUp, Leaves, Looks, Splits};

use crate::front::Front;
use crate::law::{Head, Log};
use crate::line::{Ask, Silent};
use crate::naming::Naming;
use crate::rule::Rule;
use crate::seat::{Holder, Seat};
use crate::steps::{add, draw, look, stuck};
use logbook::Pen;
use std::marker::{Model, PhantomData};
use std::sync::Wait;

/// A history of any name: the word that is its length, and the whole of it as it was last seen.
#[derive(Drop)]
pub(crate) struct Whole<O, E, C: Rule<O, E>> {
    pub(crate) head: Head<O, E, C>,
    pub(crate) count: u64,
    pub(crate) seen: Log<O, E, C>,
}

/// The history. Contracts see all entries.
#[derive(Drop)]
pub struct History<O, E, C: Rule<O, E>, J: Naming> {
    pub(crate) whole: Whole<O, E, C>,
    /// How many seats have not left.
    pub(crate) seats: u64,
    pub(crate) of: PhantomData<J>,
}

impl<O, E, C: Rule<O, E>, J: Naming> Model for History<O, E, C, J> {
    ghost use Rattle.std.specs.Prelude.{List};
    ghost use Rattle.shared_history.specs.Inner.Codes.{log_code};
    ghost use Rattle.shared_history.specs.Inner.Kept.{IsAll};
    ghost use Rattle.shared_history.specs.Inner.Lines.{entries_of};
    ghost use Rattle.shared_history.specs.declared.entry.Entry.{Entry};

    ghost Value = { List (Entry O E) };

    ghost coded = { log_code O.code E.code };

    ghost view = { λ h. entries_of h.whole.seen.log };

    ghost invariant = { λ h. IsAll C.may J.book h.whole.head h.whole.count h.seats h.whole.seen.book h.whole.seen.log };
}

impl<O, E, C: Rule<O, E>, J: Naming> History<O, E, C, J> {
    /// All that there is.
    pub fn front(&self) -> Front<O, E, C, J>
        ensures front { result ≡ self.now }
        ensures legal { IsHistory C.may result }
        ensures seen { IsSeen C.may J.book result }
    {
        Front {
            count: self.whole.count,
            seen: self.whole.seen.again(),
            of: PhantomData,
        }
    }

    /// What the front has begins the history.
    pub fn covers<R: Wait>(&self, rt: &R, front: &Front<O, E, C, J>)
        ensures begins { IsPrefix front.now self.now }
        ensures legal { IsHistory C.may self.now }
    {
        let mut both = self.whole.seen.again();
        both.learn(&front.seen);
        if self.whole.count < front.count {
            stuck(rt);
        }
    }

    /// The seat calls the shared thing with this event.
    pub fn enter<R: Wait>(&mut self, rt: &R, seat: &mut Seat<O, E, C, J>, event: &E)
        requires { MayCall C.may self.old event.now }
        ensures calls { Calls event.now seat.old self.old seat.new }
        ensures whole { self.new ≡ seat.new.seen }
        ensures legal { IsHistory C.may self.new }
        ensures seen { IsSeen C.may J.book self.new }
    {
        let none = self.whole.seen.no_pen();
        Self::write_as(
            rt,
            &mut self.whole,
            &mut seat.holder,
            &none,
            Ask::Called(event),
        );
    }

    /// The seat looks at all that there is, which is an entry too: what it sees then is the history up to there.
    pub fn look<R: Wait>(&mut self, rt: &R, seat: &mut Seat<O, E, C, J>)
        ensures looks { Looks seat.old self.old seat.new }
        ensures whole { self.new ≡ seat.new.seen }
        ensures legal { IsHistory C.may self.new }
        ensures seen { IsSeen C.may J.book self.new }
    {
        let none = self.whole.seen.no_pen();
        let all = self.whole.seen.again();
        Self::write_as(
            rt,
            &mut self.whole,
            &mut seat.holder,
            &none,
            silent(&all, Silent::Looked),
        );
    }

    /// The seat sees all that there is.
    pub fn catch_up<R: Wait>(&self, rt: &R, seat: &mut Seat<O, E, C, J>)
        ensures catches_up { CatchesUp seat.old self.now seat.new }
        ensures legal { IsHistory C.may self.now }
        ensures seen { IsSeen C.may J.book self.now }
    {
        let mut seen = self.whole.seen.again();
        seen.learn(&seat.holder.seen);
        look(&self.whole.head, &mut seen, &mut seat.holder.turn);
        if self.whole.count < seat.holder.count {
            stuck(rt);
        }
        seat.holder.count = self.whole.count;
        seat.holder.seen = self.whole.seen.again();
    }

    /// The seat makes another.
    pub fn split<R: Wait>(&mut self, rt: &R, seat: &mut Seat<O, E, C, J>) -> Seat<O, E, C, J>
        ensures splits { Splits seat.old self.old seat.new result }
        ensures whole { self.new ≡ seat.new.seen }
        ensures legal { IsHistory C.may self.new }
        ensures seen { IsSeen C.may J.book self.new }
    {
        let number = self.whole.count;
        let turn = draw(&self.whole.head, &self.whole.seen);
        let all = self.whole.seen.again();
        let count = Self::write_as(
            rt,
            &mut self.whole,
            &mut seat.holder,
            &turn,
            silent(&all, Silent::Split),
        );
        self.seats += 1;
        Seat {
            holder: Holder {
                number,
                count,
                seen: self.whole.seen.again(),
                turn,
            },
            of: PhantomData,
        }
    }

    /// The seat leaves.
    pub fn leave<R: Wait>(&mut self, rt: &R, seat: Seat<O, E, C, J>)
        ensures leaves { Leaves seat self.old self.new }
        ensures left { HasLeft C.may self.new seat.number }
        ensures legal { IsHistory C.may self.new }
        ensures seen { IsSeen C.may J.book self.new }
    {
        let Seat {
            mut holder,
            of: _of,
        } = seat;
        let none = self.whole.seen.no_pen();
        let all = self.whole.seen.again();
        Self::write_as(
            rt,
            &mut self.whole,
            &mut holder,
            &none,
            silent(&all, Silent::Left),
        );
        self.seats -= 1;
    }

    /// Each seat has left, and the history is over. Where one has not it does not return.
    pub fn close<R: Wait>(&self, rt: &R)
        ensures ended { HasEnded self.now }
        ensures whole { IsWhole C.may self.now }
        ensures legal { IsHistory C.may self.now }
        ensures seen { IsSeen C.may J.book self.now }
    {
        if self.seats != 0 {
            stuck(rt);
        }
    }
    // The seat makes an entry after all that there are, and sees all up to there: how many there are then. `child` is
    // the turn of the seat that it makes.
    fn write_as<R: Wait>(
        rt: &R,
        whole: &mut Whole<O, E, C>,
        seat: &mut Holder<O, E, C>,
        child: &Pen,
        ask: Ask<'_, O, E>,
    ) -> u64
        requires head { whole.old.head ≡ head_of J.book }
        requires whole { IsFront C.may J.book whole.old.count whole.old.seen.book whole.old.seen.log }
        requires seat { IsSeated C.may J.book seat.old.number seat.old.count seat.old.seen.book seat.old.seen.log
            seat.old.turn.book seat.old.turn.nib }
        requires allowed { MayFollow C.may (entries_of whole.old.seen.log) (deed_of ask) }
        ensures count { result ≡ whole.new.count }
        ensures head { whole.new.head ≡ whole.old.head }
        ensures whole { IsFront C.may J.book whole.new.count whole.new.seen.book whole.new.seen.log }
        ensures number { seat.new.number ≡ seat.old.number }
        ensures sees { seat.new.seen ≡ whole.new.seen }
        ensures seat { is_left (deed_of ask.entry) ≡ false → IsSeated C.may J.book seat.new.number seat.new.count seat.new.seen.book seat.new.seen.log
            seat.new.turn.book seat.new.turn.nib }
        ensures written { Writes C.may seat.old.seen.log whole.old.seen.log whole.new.seen.log
            seat.old.number ask.entry seat.new.turn.nib child.now.nib }
    {
        let next = draw(&whole.head, &whole.seen);
        let mut all = whole.seen.again();
        all.learn(&seat.seen);
        whole.count = add(
            rt,
            &whole.head,
            whole.count,
            &mut all,
            seat.number,
            ask,
            &mut seat.turn,
            &next,
            child,
        );
        whole.seen = all;
        seat.count = whole.count;
        seat.seen = whole.seen.again();
        seat.turn = next;
        whole.count
    }
}

// The checker of borrows wants a value that lives as long as the references in `Ask`.
fn silent<'a, O, E, C: Rule<O, E>>(_seen: &'a Log<O, E, C>, deed: Silent) -> Ask<'a, O, E>
    ensures { deed_of result ≡ silent_deed deed }
{
    Ask::Silent(deed)
}
