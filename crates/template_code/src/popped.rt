//! The slots that an instruction pops.
ghost use Rattle.std.specs.Prelude.{◌≡◌, length};
ghost use Rattle.template_code.specs.Instructions.{arguments, popped_kinds};

use helper_set::helper::Helper;
use helper_set::signature::{Parameter, signature};

/// The slots that an instruction pops, and which kinds each may have.
#[derive(Clone, Copy, Debug, PartialEq, Eq)]
pub enum Popped {
    Nothing,
    One(Parameter),
    Two { top: Parameter, below: Parameter },
}

impl Popped {
    /// How many slots are popped.
    pub fn count(self) -> usize
        ensures { result ≡ length (popped_kinds self) }
    {
        match self {
            Popped::Nothing => 0,
            Popped::One(_) => 1,
            Popped::Two { .. } => 2,
        }
    }

    // The arguments of a helper, the last of which is on top.
    pub(crate) fn arguments(helper: Helper) -> Popped
        ensures { result ≡ arguments helper }
    {
        let signature = signature(helper);
        match signature.second {
            None => Popped::One(signature.first),
            Some(second) => Popped::Two {
                top: second,
                below: signature.first,
            },
        }
    }
}
