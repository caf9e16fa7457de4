// Which mapping answers a request, and what each other one wants.
ghost use Rattle.std.specs.Prelude.{IfOk, OnOk, map};
ghost use Rattle.mapping_commands.specs.Answering.{sent_of};
ghost use Rattle.mapping_commands.specs.Explaining.{AreSet, IsChosenFor, IsSetTo, given_of};

use crate::fresh::{answer_of, book_with, mappings_of};
use crate::sent::{SentRequest, snapshot_of};
use command_output::error::CommandError;
use command_output::files::Documents;
use mapping_model::mapping_id::MappingId;
use match_difference::difference::{Difference, differences};
use match_difference::read_request::ReadRequest;
use mock_request::snapshot::Snapshot;
use plain_text::text::Text;
use request_journal::event::ServeAnswer;
use request_journal::mapping::Mapping;
use request_match::parsed_request::ParsedRequest;
use request_match::ready_mapping::ReadyMapping;
use std::alloc::{AllocError, Global};
use stub_book::book::Book;
use stub_response::limits::Limits;
use stub_response::respond::respond;
use template_tree::escape::Escape;

/// The status of a request that no mapping answers.
const UNMATCHED: u16 = 404;

/// What there is to say of a request.
pub(crate) struct Explanation {
    /// The mappings, in the order in which they are chosen.
    pub(crate) mappings: Vec<Explained>,
    /// What the book answers with.
    pub(crate) answer: ServeAnswer,
    /// The number of the mapping that answers, if one does.
    pub(crate) number: usize,
    /// The status of the answer.
    pub(crate) status: u16,
}

/// A mapping, and whether it answers.
pub(crate) struct Explained {
    /// From 1 on, over all documents.
    pub(crate) number: usize,
    pub(crate) mapping: Mapping,
    pub(crate) is_chosen: bool,
    pub(crate) differences: Vec<Difference>,
}

// Written out, so that a caller's proof sees one call and not the drop of each part.
impl Drop for Explained {
    fn drop(self) {
        let Explained {
            number: _number,
            mapping: _mapping,
            is_chosen: _is_chosen,
            differences: _differences,
        } = self;
    }
}

impl Drop for Explanation {
    fn drop(self) {
        let Explanation {
            mappings: _mappings,
            answer: _answer,
            number: _number,
            status: _status,
        } = self;
    }
}

/// A scenario, and the state that it is in.
#[derive(Clone, Copy)]
pub struct GivenState<'a> {
    pub scenario: &'a str,
    pub state: &'a str,
}

/// What there is to say of the request, where a book was just opened with the documents' mappings and its scenarios
/// were set to these states.
pub(crate) fn explanation_of(
    alloc: Global,
    documents: &Documents,
    sent: SentRequest<'_>,
    states: &[GivenState<'_>],
    escape: Escape,
) -> Result<Explanation, CommandError>
    ensures { IfOk result (λ made. IsChosenFor escape (map (λ text. text.items) documents.now.texts.items)
        (sent_of sent.entry) (map given_of states.now) made.answer) }
{
    let mappings = mappings_of(alloc, documents.texts.as_slice(), escape)?;
    let ids = ids_of(alloc, mappings.as_slice())?;
    let mut book = book_with(alloc, mappings, 0)?;
    set_states(alloc, &mut book, states)?;
    let request = snapshot_of(alloc, sent)?;
    let mut listed = each_explained(alloc, &book, ids.as_slice(), &request)?;
    let answer = answer_of(&mut book, &request)?;
    let number = mark_chosen(&mut listed, &answer);
    let mappings = in_order(alloc, listed)?;
    let status = status_of(alloc, &answer, &request)?;
    Ok(Explanation {
        mappings,
        answer,
        number,
        status,
    })
}

/// The id that the book knows each mapping by.
fn ids_of(alloc: Global, mappings: &[ReadyMapping]) -> Result<Vec<MappingId>, AllocError> {
    let mut ids = Vec::new(alloc);
    for (index, mapping) in mappings.iter().enumerate() {
        ids.push(match mapping.spec().id {
            Some(id) => id,
            None => MappingId::of_default(alloc, index as u64)?,
        })?;
    }
    Ok(ids)
}

fn set_states(alloc: Global, book: &mut Book, states: &[GivenState<'_>]) -> Result<(), CommandError>
    ensures { OnOk result (AreSet (map given_of states.now) book.old book.new) }
{
    for given in states {
        set_state(alloc, book, given.scenario, given.state)?;
    }
    Ok(())
}

#[tactic(auto, unfolding(crate::specs::Explaining::IsSetTo))]
fn set_state(
    alloc: Global,
    book: &mut Book,
    scenario: &str,
    state: &str,
) -> Result<(), CommandError>
    ensures { OnOk result (IsSetTo scenario.now state.now book.old book.new) }
{
    let scenario = Text::from(String::from_str(alloc, scenario)?);
    let state = Text::from(String::from_str(alloc, state)?);
    match book.set_scenario(scenario, state) {
        Ok(_accepted) => Ok(()),
        Err(error) => Err(CommandError::from(error.code)),
    }
}

/// Each mapping of the book, the newest first, with its differences.
fn each_explained(
    alloc: Global,
    book: &Book,
    ids: &[MappingId],
    request: &Snapshot,
) -> Result<Vec<Explained>, CommandError> {
    let mut parsed = ParsedRequest::new(alloc, request);
    let read = ReadRequest::read(alloc, request)?;
    let mut listed = Vec::new(alloc);
    for mapping in book.mappings()? {
        let states = book.scenarios();
        let found = match differences(alloc, &mapping, &mut parsed, &read, states) {
            Ok(found) => found,
            Err(error) => return Err(CommandError::from(error.error_code())),
        };
        let explained = Explained {
            number: number_of(ids, mapping.id),
            mapping,
            is_chosen: false,
            differences: found,
        };
        push(&mut listed, explained)?;
    }
    Ok(listed)
}

fn push(listed: &mut Vec<Explained>, explained: Explained) -> Result<(), AllocError> {
    listed.push(explained)?;
    Ok(())
}

/// The number of the last mapping with this id: it replaces the earlier ones.
fn number_of(ids: &[MappingId], id: MappingId) -> usize {
    let mut number = 0;
    for (index, other) in ids.iter().enumerate() {
        if other.same(id) {
            number = index.saturating_add(1);
        }
    }
    number
}

/// Marks the mapping that answers, if one does, and gives its number.
fn mark_chosen(listed: &mut Vec<Explained>, answer: &ServeAnswer) -> usize {
    let mut number = 0;
    if let ServeAnswer::Stub(captured) = answer {
        for explained in listed.iter_mut() {
            if explained.mapping.id.same(captured.mapping.id) {
                explained.is_chosen = true;
                number = explained.number;
            }
        }
    }
    number
}

/// Those of the least priority number first, and of these the newest: in the order in which they were listed.
fn in_order(alloc: Global, listed: Vec<Explained>) -> Result<Vec<Explained>, AllocError> {
    let mut ordered = listed;
    ordered.sort_by(|one, other| priority(one).cmp(&priority(other)))?;
    Ok(ordered)
}

fn priority(explained: &Explained) -> i32 {
    explained.mapping.spec.spec().priority_number()
}

fn status_of(alloc: Global, answer: &ServeAnswer, request: &Snapshot) -> Result<u16, AllocError> {
    match answer {
        ServeAnswer::Stub(captured) => {
            let spec = captured.mapping.spec.spec();
            Ok(respond(alloc, spec, request, Limits::usual())?.status)
        }
        _ => Ok(UNMATCHED),
    }
}
