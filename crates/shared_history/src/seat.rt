// Who makes entries.
ghost use Rattle.std.specs.Prelude.{◌≡◌};
ghost use Rattle.shared_history.specs.History.{IsHistory};
ghost use Rattle.shared_history.specs.Seal.{IsSeen};

use crate::front::Front;
use crate::law::Log;
use crate::naming::Naming;
use crate::rule::Rule;
use logbook::Pen;
use std::marker::{Model, PhantomData};

/// A seat of a history of any name: its number, what it has seen, and its turn, which its next entry uses up.
#[derive(Drop)]
pub(crate) struct Holder<O, E, C: Rule<O, E>> {
    pub(crate) number: u64,
    pub(crate) count: u64,
    pub(crate) seen: Log<O, E, C>,
    pub(crate) turn: Pen,
}

/// A seat of the history.
#[derive(Drop)]
pub struct Seat<O, E, C: Rule<O, E>, J: Naming> {
    pub(crate) holder: Holder<O, E, C>,
    pub(crate) of: PhantomData<J>,
}

impl<O, E, C: Rule<O, E>, J: Naming> Model for Seat<O, E, C, J> {
    ghost use Rattle.shared_history.specs.Inner.Codes.{sight_code};
    ghost use Rattle.shared_history.specs.Inner.Kept.{IsSeated};
    ghost use Rattle.shared_history.specs.Inner.Lines.{entries_of};
    ghost use Rattle.shared_history.specs.Sight.{Sight};

    ghost Value = { Sight O E };

    ghost coded = { sight_code O.code E.code };

    ghost view = { λ s. record { number = s.holder.number; seen = entries_of s.holder.seen.log } };

    ghost invariant = { λ s. IsSeated C.may J.book s.holder.number s.holder.count s.holder.seen.book s.holder.seen.log s.holder.turn.book s.holder.turn.nib };
}

impl<O, E, C: Rule<O, E>, J: Naming> Seat<O, E, C, J> {
    /// The index of the entry that made it.
    pub fn number(&self) -> u64
        ensures number { result ≡ self.now.number }
        ensures legal { IsHistory C.may self.now.seen }
    {
        self.holder.number
    }

    /// What it has seen.
    pub fn front(&self) -> Front<O, E, C, J>
        ensures front { result ≡ self.now.seen }
        ensures legal { IsHistory C.may result }
        ensures seen { IsSeen C.may J.book result }
    {
        Front {
            count: self.holder.count,
            seen: self.holder.seen.again(),
            of: PhantomData,
        }
    }
}
