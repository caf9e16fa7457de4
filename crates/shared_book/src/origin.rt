// Which book is shared, and which history is its.
use shared_history::naming::Naming;
use std::marker::Brand;
use std::sync::ledger::Ledger;

/// The history of a shared book and a ledger of its accepted calls, with the past that the book had when it was shared.
pub trait Origin: Ledger + Naming {
    ghost use Rattle.request_journal.specs.Past.{Past};

    ghost origin: { Past };
}

// What stands here is never used: where a function over `L` is called with `Brand`, its caller's proof picks the
// origin, any past, with `ghosts-F-L-Origin` in `proofs/../Invariants.antt`.
impl Origin for Brand {
    ghost use Rattle.std.specs.Prelude.{[]};
    ghost use Rattle.request_journal.specs.Past.{opened};

    ghost origin = { opened 0 [] };
}
