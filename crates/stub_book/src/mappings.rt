// The calls that change mappings.
ghost use Rattle.std.specs.Prelude.{◌≡◌, IfErr, IfOk, OnErr, unwrap_or};
ghost use Rattle.mapping_model.specs.MappingId.{event_id};
ghost use Rattle.request_journal.specs.declared.input.BookInput.TheVariants as input;
ghost use Rattle.stub_book.specs.Growth.{IsAccepted};
ghost use Rattle.stub_book.specs.Refusals.{IsRefusal};

use crate::accepted::Accepted;
use crate::book::Book;
use crate::error::BookError;
use crate::prepared::prepare;
use mapping_model::mapping_id::MappingId;
use mapping_store::book_mapping::BookMapping;
use request_journal::event::Event;
use request_match::ready_mapping::ReadyMapping;
use std::alloc::{AllocError, Global};

impl Book {
    /// Adds a mapping, in place of the live one with its id, if there is one. A mapping without an id gets one of the
    /// event's number.
    pub fn add(&mut self, mapping: ReadyMapping) -> Result<Accepted, BookError>
        ensures ok { IfOk result (IsAccepted self.old self.new (input.Add mapping)) }
        ensures err { OnErr result (self.new ≡ self.old) }
        ensures why { IfErr result (λ error. IsRefusal self.old (input.Add mapping) error.code) }
    {
        self.has_number()?;
        let number = self.history.last_number() + 1;
        let id = id_of(self.alloc, &mapping, number)?;
        self.has_place(id)?;
        let added = BookMapping::new(self.alloc, id, mapping)?;
        let copy = added.mapping()?;
        self.store.reserve(1)?;
        let made = prepare(self.alloc, &mut self.history, Event::Add(copy))?;
        self.store.add(number, added);
        self.history.push_reserved(made.event);
        Ok(made.accepted)
    }

    /// Writes the live mapping with this id anew. It keeps its id and its place.
    pub fn edit(&mut self, id: MappingId, mapping: ReadyMapping) -> Result<Accepted, BookError>
        ensures ok { IfOk result (IsAccepted self.old self.new (input.Edit id mapping)) }
        ensures err { OnErr result (self.new ≡ self.old) }
        ensures why { IfErr result (λ error. IsRefusal self.old (input.Edit id mapping) error.code) }
    {
        self.has_number()?;
        self.has_mapping(id)?;
        let spec = mapping.shared().clone()?;
        let edited = BookMapping::new(self.alloc, id, mapping)?;
        let made = prepare(self.alloc, &mut self.history, Event::Edit { id, spec })?;
        let _found = self.store.edit(edited);
        self.history.push_reserved(made.event);
        Ok(made.accepted)
    }

    /// Deletes the live mapping with this id.
    pub fn delete(&mut self, id: MappingId) -> Result<Accepted, BookError>
        ensures ok { IfOk result (IsAccepted self.old self.new (input.Delete id)) }
        ensures err { OnErr result (self.new ≡ self.old) }
        ensures why { IfErr result (λ error. IsRefusal self.old (input.Delete id) error.code) }
    {
        self.has_number()?;
        self.has_mapping(id)?;
        let made = prepare(self.alloc, &mut self.history, Event::Delete(id))?;
        let _found = self.store.remove(id);
        self.history.push_reserved(made.event);
        Ok(made.accepted)
    }

    /// Deletes all live mappings.
    pub fn delete_all(&mut self) -> Result<Accepted, BookError>
        ensures ok { IfOk result (IsAccepted self.old self.new input.DeleteAll) }
        ensures err { OnErr result (self.new ≡ self.old) }
        ensures why { IfErr result (λ error. IsRefusal self.old input.DeleteAll error.code) }
    {
        let made = prepare(self.alloc, &mut self.history, Event::DeleteAll)?;
        self.store.clear();
        self.history.push_reserved(made.event);
        Ok(made.accepted)
    }

    /// Makes the defaults the live mappings. No matcher is built again.
    pub fn reset_mappings(&mut self) -> Result<Accepted, BookError>
        ensures ok { IfOk result (IsAccepted self.old self.new input.ResetMappings) }
        ensures err { OnErr result (self.new ≡ self.old) }
        ensures why { IfErr result (λ error. IsRefusal self.old input.ResetMappings error.code) }
    {
        let made = prepare(self.alloc, &mut self.history, Event::ResetMappings)?;
        self.store.reset(self.history.last_number() + 1);
        self.history.push_reserved(made.event);
        Ok(made.accepted)
    }
}

// The id of a mapping that is added by the event with this number.
fn id_of(alloc: Global, mapping: &ReadyMapping, number: u64) -> Result<MappingId, AllocError>
    ensures { IfOk result (λ id. id ≡ unwrap_or mapping.now.id (event_id number)) }
{
    match mapping.spec().id {
        Some(id) => Ok(id),
        None => MappingId::of_event(alloc, number),
    }
}
