// What was seen of the history.
ghost use Rattle.std.specs.Prelude.{◌≡◌, ◌⊎◌, length};
ghost use mathlib.Core.List.{IsPrefix};
ghost use Rattle.shared_history.specs.History.{IsHistory};
ghost use Rattle.shared_history.specs.Seal.{IsSeen};

use crate::law::Log;
use crate::naming::Naming;
use crate::rule::Rule;
use std::marker::{Model, PhantomData};

/// A beginning of the history that was seen. Contracts see its entries.
#[derive(Drop)]
pub struct Front<O, E, C: Rule<O, E>, J: Naming> {
    pub(crate) count: u64,
    pub(crate) seen: Log<O, E, C>,
    pub(crate) of: PhantomData<J>,
}

impl<O, E, C: Rule<O, E>, J: Naming> Model for Front<O, E, C, J> {
    ghost use Rattle.std.specs.Prelude.{List};
    ghost use Rattle.shared_history.specs.Inner.Codes.{log_code};
    ghost use Rattle.shared_history.specs.Inner.Kept.{IsFront};
    ghost use Rattle.shared_history.specs.Inner.Lines.{entries_of};
    ghost use Rattle.shared_history.specs.declared.entry.Entry.{Entry};

    ghost Value = { List (Entry O E) };

    ghost coded = { log_code O.code E.code };

    ghost view = { λ f. entries_of f.seen.log };

    ghost invariant = { λ f. IsFront C.may J.book f.count f.seen.book f.seen.log };
}

impl<O, E, C: Rule<O, E>, J: Naming> Front<O, E, C, J> {
    /// How many entries it has.
    pub fn len(&self) -> u64
        ensures length { result ≡ length self.now }
        ensures legal { IsHistory C.may self.now }
    {
        self.count
    }

    /// A copy.
    pub fn again(&self) -> Front<O, E, C, J>
        ensures front { result ≡ self.now }
        ensures seen { IsSeen C.may J.book result }
    {
        Front {
            count: self.count,
            seen: self.seen.again(),
            of: PhantomData,
        }
    }

    /// The longer of two fronts, which both begin.
    pub fn longer(&self, other: &Front<O, E, C, J>) -> Front<O, E, C, J>
        ensures one { (result ≡ self.now) ⊎ (result ≡ other.now) }
        ensures this { IsPrefix self.now result }
        ensures that { IsPrefix other.now result }
        ensures legal { IsHistory C.may result }
        ensures seen { IsSeen C.may J.book result }
    {
        let mut both = self.seen.again();
        both.learn(&other.seen);
        if self.count < other.count {
            other.again()
        } else {
            self.again()
        }
    }
}
