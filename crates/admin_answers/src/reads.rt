// Calls that read the book. The JSON is written after the lock was let go: that of lists piece by piece, and requests are
// searched then, too.
ghost use Rattle.std.specs.Prelude.{◌≡◌, ◌⊎◌, ◌+◌, ◌<◌, ℕ, List, IfErr, IfOk, None, Some};
ghost use Rattle.std.specs.List.{AllByRecursion};
ghost use Rattle.admin_answers.specs.Answers.{IsAnsweredByBook, IsHeldReply, IsUnansweredByBook};
ghost use Rattle.admin_answers.specs.Inner.Said.{IsSaid, IsUnsaid};
ghost use Rattle.admin_answers.specs.JsonReply.{IsJsonReply};
ghost use Rattle.admin_answers.specs.Recordings.{HasNoHar, IsHarReply};
ghost use Rattle.admin_answers.specs.Replies.{reply_of};
ghost use Rattle.admin_json.specs.Mappings.{json_of_held, json_of_mappings};
ghost use Rattle.admin_json.specs.Recordings.{json_of_status};
ghost use Rattle.admin_json.specs.Requests.{json_of_found, json_of_number, json_of_requests};
ghost use Rattle.admin_json.specs.Scenarios.{json_of_scenarios};
ghost use Rattle.admin_routes.specs.declared.call.AdminCall.TheVariants as call;
ghost use Rattle.error_code.specs.declared.error_code.ErrorCode.TheVariants as code;
ghost use Rattle.har_export.specs.Document.{IsHarText};
ghost use Rattle.recorder.specs.Recording.{session_of};
ghost use Rattle.request_journal.specs.Journal.{IsCount, Picks};
ghost use Rattle.request_journal.specs.declared.entry.Entry.{Entry};
ghost use Rattle.request_match.specs.Matching.{MeetsRequest};
ghost use Rattle.stub_response.specs.ErrorReply.{json_reply};

use crate::admin_answer::AdminAnswer;
use crate::error::SharedError;
use crate::json_reply::value_reply;
use crate::listing::Listing;
use admin_json::mappings::mapping_value;
use admin_json::recordings::status_value;
use admin_json::scenarios::scenarios_value;
use error_code::error_code::ErrorCode;
use mapping_model::reply::Reply;
use recorder::recording::{Recording, RecordingStatus, Session};
use request_journal::entry::Entry;
use request_journal::mapping::Mapping;
use request_journal::read::BookRead;
use request_match::request_matcher::RequestMatcher;
use scenario_core::scenarios::Scenarios;
use shared_book::book_read::{ReadAnswer, Reading};
use shared_book::origin::Origin;
use shared_book::seat::Seat;
use shared_book::shared_book::SharedBook;
use std::alloc::{AllocError, Global};
use std::sync::Wait;

/// Makes the reading, and answers it.
pub(crate) fn read<L: Origin, R: Wait>(
    rt: &R,
    alloc: Global,
    shared: &SharedBook<L>,
    seat: &mut Seat<L>,
    asked: BookRead,
) -> Result<AdminAnswer, SharedError>
    ensures ok { IfOk result (λ answer.
        IsAnsweredByBook L.origin L.book seat.old seat.new (call.Read asked) (reply_of answer)) }
    ensures refused { IfErr result (λ error.
        IsUnansweredByBook L.origin L.book seat.old seat.new (call.Read asked) error.code) }
{
    let Reading { number, answer } = seat.read(rt, shared, asked)?;
    reading_answer(alloc, number, answer)
}

// What was read, as it is answered, with the number of the last event at that point.
fn reading_answer(alloc: Global, number: u64, found: ReadAnswer) -> Result<AdminAnswer, SharedError>
    ensures ok { IfOk result (λ answer. IsSaid number found (reply_of answer)) }
    ensures refused { IfErr result (λ error. IsUnsaid found error.code) }
{
    match found {
        ReadAnswer::Mappings(mappings) => Ok(AdminAnswer::Listed(mappings_listing(
            alloc,
            mappings.as_slice(),
        )?)),
        ReadAnswer::Mapping(held) => Ok(AdminAnswer::Whole(held_reply(alloc, &held)?)),
        ReadAnswer::Requests(requests) => {
            Ok(AdminAnswer::Listed(requests_listing(alloc, number, requests)?))
        }
        ReadAnswer::Unmatched(requests) => {
            Ok(AdminAnswer::Listed(found_listing(alloc, number, requests)?))
        }
        ReadAnswer::Find { requests, matcher } => {
            Ok(AdminAnswer::Listed(search_listing(alloc, number, requests, matcher)?))
        }
        ReadAnswer::Count { requests, matcher } => {
            Ok(AdminAnswer::Listed(count_listing(alloc, requests, matcher)?))
        }
        ReadAnswer::Scenarios { states, mappings } => {
            Ok(AdminAnswer::Whole(scenarios_reply(alloc, &states, mappings.as_slice())?))
        }
        ReadAnswer::RecordingStatus(status) => Ok(AdminAnswer::Whole(status_reply(alloc, status)?)),
        ReadAnswer::Recording(recording) => Ok(AdminAnswer::Listed(har_listing(
            alloc, &recording,
        )?)),
    }
}

fn mappings_listing(alloc: Global, mappings: &[Mapping]) -> Result<Listing, AllocError>
    ensures { IfOk result (λ listing.
        IsJsonReply 200 (json_of_mappings mappings.now) (json_reply 200 listing)) }
{
    Listing::of_mappings(alloc, mappings)
}

// Requests whose events have numbers up to the last.
fn requests_listing(alloc: Global, last: u64, entries: Vec<Entry>) -> Result<Listing, AllocError>
    ensures { IfOk result (λ listing.
        AllByRecursion (λ entry. entry.number < last + 1) entries.items
        → IsJsonReply 200 (json_of_requests entries.items) (json_reply 200 listing)) }
{
    Listing::of_requests(alloc, entries)
}

fn found_listing(alloc: Global, last: u64, entries: Vec<Entry>) -> Result<Listing, AllocError>
    ensures { IfOk result (λ listing.
        AllByRecursion (λ entry. entry.number < last + 1) entries.items
        → IsJsonReply 200 (json_of_found entries.items) (json_reply 200 listing)) }
{
    Listing::of_found(alloc, entries)
}

// Those of them that meet the matcher.
fn search_listing(
    alloc: Global,
    last: u64,
    entries: Vec<Entry>,
    matcher: RequestMatcher,
) -> Result<Listing, AllocError>
    ensures { IfOk result (λ listing.
        AllByRecursion (λ entry. entry.number < last + 1) entries.items
        → (found : List Entry) × Picks (λ entry. MeetsRequest matcher entry.request) entries.items found
        × IsJsonReply 200 (json_of_found found) (json_reply 200 listing)) }
{
    Listing::of_search(alloc, entries, matcher)
}

fn count_listing(
    alloc: Global,
    entries: Vec<Entry>,
    matcher: RequestMatcher,
) -> Result<Listing, AllocError>
    ensures { IfOk result (λ listing.
        (count : ℕ) × IsCount (λ entry. MeetsRequest matcher entry.request) entries.items count
        × IsJsonReply 200 (json_of_number count) (json_reply 200 listing)) }
{
    Listing::of_count(alloc, entries, matcher)
}

fn har_listing(alloc: Global, recording: &Recording) -> Result<Listing, SharedError>
    ensures ok { IfOk result (λ listing. IsHarReply (session_of recording.now) (json_reply 200 listing)) }
    ensures refused { IfErr result
        (λ error. (error.code ≡ code.OutOfMemory) ⊎ HasNoHar (session_of recording.now) error.code) }
{
    match recording.session() {
        Some(session) => session_listing(alloc, session),
        None => Err(SharedError::from(ErrorCode::NotRecording)),
    }
}

fn session_listing(alloc: Global, session: &Session) -> Result<Listing, SharedError>
    ensures ok { IfOk result (IsHarText session.now.target session.now.exchanges) }
    ensures refused { IfErr result (λ error. (error.code ≡ code.OutOfMemory)
        ⊎ HasNoHar (Some session.now) error.code) }
{
    Ok(Listing::of_exchanges(alloc, session.exchanges.as_slice(), &session.target)?)
}

fn held_reply(alloc: Global, held: &Option<Mapping>) -> Result<Reply, SharedError>
    ensures ok { IfOk result (IsHeldReply held.now) }
    ensures refused { IfErr result (λ error. (error.code ≡ code.OutOfMemory)
        ⊎ ((error.code ≡ code.UnknownMapping) × (held.now ≡ None))) }
{
    match held {
        Some(mapping) => Ok(mapping_reply(alloc, mapping)?),
        None => Err(SharedError::from(ErrorCode::UnknownMapping)),
    }
}

fn mapping_reply(alloc: Global, mapping: &Mapping) -> Result<Reply, AllocError>
    ensures { IfOk result (IsJsonReply 200 (json_of_held mapping.now)) }
{
    value_reply(alloc, 200, &mapping_value(alloc, mapping)?)
}

fn scenarios_reply(
    alloc: Global,
    states: &Scenarios,
    mappings: &[Mapping],
) -> Result<Reply, AllocError>
    ensures { IfOk result (IsJsonReply 200 (json_of_scenarios states.now mappings.now)) }
{
    value_reply(alloc, 200, &scenarios_value(alloc, states, mappings)?)
}

fn status_reply(alloc: Global, status: RecordingStatus) -> Result<Reply, AllocError>
    ensures { IfOk result (IsJsonReply 200 (json_of_status status)) }
{
    value_reply(alloc, 200, &status_value(alloc, status)?)
}
