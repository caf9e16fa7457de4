// What a shared book answers to an admin call.
ghost use Rattle.std.specs.Prelude.{IfOk, IfErr};
ghost use Rattle.admin_answers.specs.Answers.{IsAnsweredByBook, IsUnansweredByBook};
ghost use Rattle.admin_answers.specs.Replies.{reply_of};

use crate::admin_answer::AdminAnswer;
use crate::change::change;
use crate::error::SharedError;
use crate::reads::read;
use admin_routes::call::AdminCall;
use shared_book::origin::Origin;
use shared_book::seat::Seat;
use shared_book::shared_book::SharedBook;
use std::alloc::Global;
use std::sync::Wait;

/// Makes the one change, or the one reading, that the call asks for, and answers it. Where memory runs out while the
/// answer is written, the change and its receipt stand.
pub fn answer_admin<L: Origin, R: Wait>(
    rt: &R,
    alloc: Global,
    shared: &SharedBook<L>,
    seat: &mut Seat<L>,
    call: AdminCall,
) -> Result<AdminAnswer, SharedError>
    ensures ok { IfOk result (λ answer. IsAnsweredByBook L.origin L.book seat.old seat.new call (reply_of answer)) }
    ensures refused { IfErr result (λ error. IsUnansweredByBook L.origin L.book seat.old seat.new call error.code) }
{
    match call {
        AdminCall::Change(asked) => change(rt, alloc, shared, seat, asked),
        AdminCall::Read(asked) => read(rt, alloc, shared, seat, asked),
    }
}
