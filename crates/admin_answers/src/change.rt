// Calls that change the book.
ghost use Rattle.std.specs.Prelude.{IfOk, IfErr};
ghost use Rattle.admin_answers.specs.Answers.{IsChanged, IsNotChanged, IsChangeReply};
ghost use Rattle.admin_answers.specs.JsonReply.{IsJsonReply};
ghost use Rattle.admin_json.specs.Mappings.{json_of_held};
ghost use Rattle.admin_json.specs.Recordings.{json_of_recorded};
ghost use Rattle.admin_answers.specs.Replies.{reply_of};
ghost use Rattle.serde_json.specs.Data.{object, no_members};
ghost use Rattle.stub_response.specs.ErrorReply.{json_reply};

use crate::admin_answer::AdminAnswer;
use crate::error::SharedError;
use crate::json_reply::value_reply;
use crate::listing::Listing;
use admin_json::mappings::mapping_value;
use mapping_model::mapping_id::MappingId;
use mapping_model::reply::Reply;
use request_journal::event::Event;
use request_journal::input::BookInput;
use request_journal::mapping::Mapping;
use request_match::shared_spec::SharedSpec;
use serde_json::{Map, Value};
use shared_book::origin::Origin;
use shared_book::seat::Seat;
use shared_book::shared_book::SharedBook;
use std::alloc::{AllocError, Global};
use std::sync::Wait;

/// Makes the change, and answers it. The JSON is written after the lock was let go, from the event that the receipt
/// has; that of a list of mappings piece by piece.
pub(crate) fn change<L: Origin, R: Wait>(
    rt: &R,
    alloc: Global,
    shared: &SharedBook<L>,
    seat: &mut Seat<L>,
    asked: BookInput,
) -> Result<AdminAnswer, SharedError>
    ensures ok { IfOk result (λ answer. IsChanged L.origin L.book seat.old seat.new asked (reply_of answer)) }
    ensures refused { IfErr result (λ error. IsNotChanged L.origin L.book seat.old seat.new asked error.code) }
{
    match seat.apply(rt, shared, asked) {
        Ok(receipt) => Ok(event_answer(alloc, receipt.event.event())?),
        Err(error) => Err(SharedError::from(error)),
    }
}

fn event_answer(alloc: Global, event: &Event) -> Result<AdminAnswer, AllocError>
    ensures { IfOk result (λ answer. IsChangeReply event.now (reply_of answer)) }
{
    match event {
        Event::StopRecording { mappings, skipped } => {
            let listing = recorded_listing(alloc, mappings.as_slice(), *skipped)?;
            Ok(AdminAnswer::Listed(listing))
        }
        Event::Add(mapping) => Ok(AdminAnswer::Whole(added_reply(alloc, mapping)?)),
        Event::Edit { id, spec } => Ok(AdminAnswer::Whole(edited_reply(alloc, *id, spec)?)),
        _ => Ok(AdminAnswer::Whole(empty_reply(alloc)?)),
    }
}

fn added_reply(alloc: Global, mapping: &Mapping) -> Result<Reply, AllocError>
    ensures { IfOk result (IsJsonReply 201 (json_of_held mapping.now)) }
{
    value_reply(alloc, 201, &mapping_value(alloc, mapping)?)
}

fn empty_reply(alloc: Global) -> Result<Reply, AllocError>
    ensures { IfOk result (IsJsonReply 200 (object no_members)) }
{
    value_reply(alloc, 200, &Value::Object(Map::new(alloc)))
}

fn edited_reply(alloc: Global, id: MappingId, spec: &SharedSpec) -> Result<Reply, AllocError>
    ensures { IfOk result (IsJsonReply 200 (json_of_held (record { id = id; spec = spec.now }))) }
{
    let spec = spec.clone()?;
    value_reply(alloc, 200, &mapping_value(alloc, &Mapping { id, spec })?)
}

fn recorded_listing(
    alloc: Global,
    mappings: &[Mapping],
    skipped: u64,
) -> Result<Listing, AllocError>
    ensures { IfOk result (λ listing.
        IsJsonReply 200 (json_of_recorded mappings.now skipped) (json_reply 200 listing)) }
{
    Listing::of_recorded(alloc, mappings, skipped)
}
