// The steps on the word.
ghost use Rattle.std.specs.Prelude.{◌≡◌, ◌+◌, ◌≤◌, ◌∷◌, ◌++◌, [], length};
ghost use mathlib.Core.List.{IsPrefix};
ghost use Rattle.logbook.specs.Pages.{may_write};
ghost use Rattle.shared_history.specs.Inner.Drafts.{MayAdd, drafted};
ghost use Rattle.shared_history.specs.Inner.Lines.{IsUnused};
ghost use Rattle.shared_history.specs.Inner.Law.{head_of};

use crate::law::{Add, Asked, Draw, Head, Log, Look, Nothing};
use crate::line::{Ask, Draft};
use crate::rule::Rule;
use logbook::{Pen, Word};
use std::sync::Wait;

/// It does not return.
pub(crate) fn stuck<R: Wait>(rt: &R)
    ensures { ⊥ }
{
    for _ in rt.forever() {}
}

/// A turn: the right to a cell that is away.
pub(crate) fn draw<O, E, C: Rule<O, E>>(head: &Head<O, E, C>, seen: &Log<O, E, C>) -> Pen
    requires { head.now ≡ head_of seen.now.book }
    ensures book { result.book ≡ seen.now.book }
    ensures right { result.nib.right ≡ may_write }
{
    let mut seen = seen.again();
    let mut offer: Asked<O, E, C> = seen.plain::<Nothing, (), Nothing>(&());
    let mut pen = seen.no_pen();
    head.compare_exchange::<Draw<O, E, C>, Nothing>(0, 0, &mut seen, &mut offer, &mut pen);
    let _word: Head<O, E, C> = Word::tracked(0, &mut pen);
    pen
}

/// Sees the history as it is, in which nobody has used up this turn.
pub(crate) fn look<O, E, C: Rule<O, E>>(
    head: &Head<O, E, C>,
    seen: &mut Log<O, E, C>,
    turn: &mut Pen,
)
    requires name { head.now ≡ head_of seen.old.book }
    requires pen { turn.old.book ≡ seen.old.book }
    requires right { turn.old.nib.right ≡ may_write }
    ensures book { seen.new.book ≡ seen.old.book }
    ensures pen { turn.new.book ≡ turn.old.book }
    ensures nib { turn.new.nib ≡ turn.old.nib }
    ensures begins { IsPrefix seen.old.log seen.new.log }
    ensures unused { IsUnused turn.old.nib.key seen.new.log }
{
    let mut offer: Asked<O, E, C> = seen.plain::<Nothing, (), Nothing>(&());
    head.compare_exchange::<Look<O, E, C>, Nothing>(0, 0, seen, &mut offer, turn);
}

/// Adds a line to all that was seen, and counts it. Where there were other lines it does not return.
pub(crate) fn add<O, E, C: Rule<O, E>, R: Wait>(
    rt: &R,
    head: &Head<O, E, C>,
    count: u64,
    seen: &mut Log<O, E, C>,
    seat: u64,
    ask: Ask<'_, O, E>,
    turn: &mut Pen,
    next: &Pen,
    child: &Pen,
) -> u64
    requires name { head.now ≡ head_of seen.old.book }
    requires pen { turn.old.book ≡ seen.old.book }
    requires right { turn.old.nib.right ≡ may_write }
    requires long { count ≤ length seen.old.log }
    requires allowed { MayAdd C.may seen.old.log count (drafted seat ask turn.old.nib next.now.nib child.now.nib) }
    ensures count { result ≡ count + 1 }
    ensures book { seen.new.book ≡ seen.old.book }
    ensures whole { length seen.old.log ≡ count }
    ensures unused { IsUnused turn.old.nib.key seen.old.log }
    ensures added { seen.new.log ≡ seen.old.log ++ drafted seat ask.entry turn.old.nib next.now.nib child.now.nib ∷ [] }
{
    if count == u64::MAX {
        stuck(rt);
    }
    let draft = Draft {
        seat,
        ask,
        turn,
        next,
        child,
    };
    let mut offer: Asked<O, E, C> = seen.plain::<Nothing, Draft<'_, O, E>, Nothing>(&draft);
    let found = head.compare_exchange::<Add<O, E, C>, Nothing>(
        count,
        count + 1,
        seen,
        &mut offer,
        turn,
    );
    if found != count {
        stuck(rt);
    }
    count + 1
}
