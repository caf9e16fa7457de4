// The book.
ghost use Rattle.std.specs.Prelude.{◌≡◌, ◌↔◌, ◌≤◌, ℕ, List, Any, IfErr, IfOk, IsErr, length};
ghost use Rattle.error_code.specs.declared.error_code.ErrorCode.TheVariants as code;
ghost use Rattle.mapping_store.specs.Stored.{IsNewestFirst};
ghost use Rattle.request_journal.specs.Legal.{IsLegal, IsLive};
ghost use Rattle.request_journal.specs.Live.{live};
ghost use Rattle.request_journal.specs.Past.{last_number, opened};
ghost use Rattle.request_journal.specs.Recording.{recording};
ghost use Rattle.request_journal.specs.State.{state};
ghost use Rattle.request_journal.specs.declared.limits.TheConstants.{LIVE_LIMIT, NUMBER_LIMIT};
ghost use Rattle.scenario_core.specs.Scenarios.{state_of};
ghost use Rattle.stub_book.specs.Refusals.{IsOpenRefusal};

use crate::error::BookError;
use book_history::history::History;
use error_code::error_code::ErrorCode;
use mapping_model::mapping_id::MappingId;
use mapping_store::mapping_store::MappingStore;
use recorder::recording::Recording;
use request_journal::limits;
use request_journal::mapping::Mapping;
use request_match::ready_mapping::ReadyMapping;
use request_match::shared_spec::SharedSpec;
use scenario_core::scenarios::Scenarios;
use std::alloc::{AllocError, Global};
use std::marker::Model;

/// A book, which contracts see as its past.
pub struct Book {
    pub(crate) history: History,
    pub(crate) store: MappingStore,
    pub(crate) scenarios: Scenarios,
    pub(crate) recording: Recording,
    pub(crate) alloc: Global,
}

// Written out, so that a caller's proof sees one call and not the drop of each part.
impl Drop for Book {
    fn drop(self) {
        let Book {
            history: _history,
            store: _store,
            scenarios: _scenarios,
            recording: _recording,
            alloc: _alloc,
        } = self;
    }
}

impl Model for Book {
    ghost use Rattle.std.specs.Coded.{codes};
    ghost use Rattle.request_journal.specs.Past.{Past};
    ghost use Rattle.book_history.specs.Inner.Codes.{states_code};

    ghost Value = { Past };

    ghost coded = { Prim.hlevel (codes, states_code) };

    ghost use Rattle.stub_book.specs.Inner.Kept.{Agrees};

    ghost view = { λ b. b.history.past };

    ghost invariant = { λ b. Agrees b.history.past b.store b.scenarios b.recording };
}

impl Book {
    /// A book with these mappings, whose first event has the number after `opening`. A default with the id of an
    /// earlier one replaces it.
    pub fn new(alloc: Global, defaults: Vec<ReadyMapping>, opening: u64) -> Result<Book, BookError>
        ensures ok { IfOk result (λ book. book ≡ opened opening defaults.items) }
        ensures why { IfErr result (λ error. IsOpenRefusal opening defaults.items error.code) }
    {
        if opening > limits::NUMBER_LIMIT {
            return Err(BookError::from(ErrorCode::HistoryFull));
        }
        let store = MappingStore::open(alloc, defaults, opening)?;
        if store.len() > limits::LIVE_LIMIT {
            return Err(BookError::from(ErrorCode::TooManyMappings));
        }
        let defaults = store.defaults(alloc)?;
        Ok(Book {
            history: History::open(alloc, opening, &defaults),
            store,
            scenarios: Scenarios::new(alloc),
            recording: Recording::NeverStarted,
            alloc,
        })
    }

    /// The number of the last event, or else the opening number.
    pub fn event_count(&self) -> u64
        ensures value { result ≡ last_number self.now }
        ensures limit { result ≤ NUMBER_LIMIT }
        ensures legal { IsLegal self.now }
        ensures few_live { length (live self.now) ≤ LIVE_LIMIT }
    {
        self.history.last_number()
    }

    pub fn history(&self) -> &History
        ensures { result.now.past ≡ self.now }
    {
        &self.history
    }

    pub fn scenarios(&self) -> &Scenarios
        ensures { (name : List ℕ) → state_of result.now name ≡ state self.now name }
    {
        &self.scenarios
    }

    pub fn recording(&self) -> &Recording
        ensures { result.now ≡ recording self.now }
    {
        &self.recording
    }

    /// The live mapping with this id, as it was written. Takes no memory.
    pub fn mapping(&self, id: MappingId) -> Result<&SharedSpec, BookError>
        ensures found { IfOk result
            (λ spec. Any (λ p. (p.mapping.id ≡ id) × (p.mapping.spec ≡ spec.now)) (live self.now)) }
        ensures unknown { IsErr result ↔ ¬ (IsLive self.now id) }
        ensures why { IfErr result (λ error. error.code ≡ code.UnknownMapping) }
    {
        match self.store.get(id) {
            Some(spec) => Ok(spec),
            None => Err(BookError::from(ErrorCode::UnknownMapping)),
        }
    }

    /// The live mappings, the newest first. They share their specifications.
    pub fn mappings(&self) -> Result<Vec<Mapping>, AllocError>
        ensures { IfOk result (λ listed. IsNewestFirst (live self.now) listed.items) }
    {
        self.store.newest_first(self.alloc)
    }
}
