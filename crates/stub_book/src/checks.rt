// What a book looks at before it changes anything.
ghost use Rattle.std.specs.Prelude.{◌≡◌, ◌<◌, ◌≤◌, IfErr, OnOk, length};
ghost use Rattle.error_code.specs.declared.error_code.ErrorCode.TheVariants as code;
ghost use Rattle.request_journal.specs.Legal.{IsLive};
ghost use Rattle.request_journal.specs.Live.{live};
ghost use Rattle.request_journal.specs.Past.{with_event};
ghost use Rattle.request_journal.specs.State.{HasState};
ghost use Rattle.request_journal.specs.declared.event.Event.TheVariants as event;
ghost use Rattle.request_journal.specs.declared.input.BookInput.TheVariants as input;
ghost use Rattle.request_journal.specs.declared.limits.TheConstants.{LIVE_LIMIT};
ghost use Rattle.request_journal.specs.declared.mapping.Mapping.{Mapping};
ghost use Rattle.stub_book.specs.Refusals.{IsFull, IsOwnReason};

use crate::book::Book;
use crate::error::BookError;
use error_code::error_code::ErrorCode;
use mapping_model::mapping_id::MappingId;
use request_journal::limits;
use scenario_core::scenarios::STARTED;

impl Book {
    // A number is left for another event.
    pub(crate) fn has_number(&self) -> Result<(), BookError>
        ensures ok { OnOk result (¬ (IsFull self.now)) }
        ensures why { IfErr result (λ error. (error.code ≡ code.HistoryFull) × IsFull self.now) }
    {
        if self.history.is_full() {
            return Err(BookError::from(ErrorCode::HistoryFull));
        }
        Ok(())
    }

    // A live mapping has this id.
    pub(crate) fn has_mapping(&self, id: MappingId) -> Result<(), BookError>
        ensures ok { OnOk result (IsLive self.now id) }
        ensures why { IfErr result (λ error. (error.code ≡ code.UnknownMapping) × ¬ (IsLive self.now id)) }
    {
        if !self.store.holds(id) {
            return Err(BookError::from(ErrorCode::UnknownMapping));
        }
        Ok(())
    }

    // A mapping with this id may be added.
    pub(crate) fn has_place(&self, id: MappingId) -> Result<(), BookError>
        ensures ok { OnOk result ((mapping : Mapping) → mapping.id ≡ id
            → length (live (with_event self.now (event.Add mapping))) ≤ LIVE_LIMIT) }
        ensures why { IfErr result (λ error. (error.code ≡ code.TooManyMappings)
            × ((mapping : Mapping) → mapping.id ≡ id
            → LIVE_LIMIT < length (live (with_event self.now (event.Add mapping))))) }
    {
        if self.store.len() < limits::LIVE_LIMIT {
            return Ok(());
        }
        if !self.store.holds(id) {
            return Err(BookError::from(ErrorCode::TooManyMappings));
        }
        Ok(())
    }

    // The scenario is known and may be in the state.
    pub(crate) fn has_state(&self, name: &str, state: &str) -> Result<(), BookError>
        ensures ok { OnOk result (HasState self.now name.now state.now) }
        ensures why { IfErr result (λ error.
            IsOwnReason self.now (input.SetScenario name.now state.now) error.code) }
    {
        if !self.store.knows(name) {
            return Err(BookError::from(ErrorCode::UnknownScenario));
        }
        if state == STARTED {
            return Ok(());
        }
        if !self.store.names(name, state) {
            return Err(BookError::from(ErrorCode::UnknownState));
        }
        Ok(())
    }
}
