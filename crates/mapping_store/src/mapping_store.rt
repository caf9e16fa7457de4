// The live mappings of a book.
ghost use Rattle.std.specs.Prelude.{◌≡◌, ◌↔◌, ◌<◌, ◌≤◌, ◌+◌, ◌∷◌, [], ◌++◌, ℕ, Any, IfOk, IfSome, IsSome, IsTrue};
ghost use Rattle.std.specs.Prelude.{IsPermutation, MatchOption, OnOk, length, vec_len};
ghost use Rattle.request_journal.specs.Choice.{IsChosen, IsMissed};
ghost use Rattle.request_journal.specs.Live.{left_by};
ghost use Rattle.request_journal.specs.Past.{defaults_from, placed_from};
ghost use Rattle.request_journal.specs.State.{IsIn, Names};
ghost use Rattle.request_journal.specs.declared.event.Event.TheVariants as event;
ghost use Rattle.scenario_core.specs.Scenarios.{state_of};
ghost use Rattle.mapping_store.specs.Stored.{Follows, IsNewestFirst};

use crate::book_mapping::BookMapping;
use crate::counts::{count_ids, count_others};
use crate::defaults::{copies, lasts, named, put_defaults};
use crate::eligible::{best_eligible, spec_of};
use crate::entries::{index_of, put_in, replace, take_out};
use crate::entry::Entry;
use crate::ids::are_new;
use crate::listing::newest_first;
use crate::scenario_names::{knows, names};
use crate::several::put_all;
use mapping_model::mapping_id::MappingId;
use plain_text::items::Items;
use request_journal::mapping::Mapping;
use request_match::parsed_request::ParsedRequest;
use request_match::ready_mapping::ReadyMapping;
use request_match::shared_spec::SharedSpec;
use scenario_core::scenarios::Scenarios;
use std::alloc::{AllocError, Global};
use std::marker::Model;

/// The live mappings with their places, and the defaults, each with its matcher for as long as the store lives.
pub struct MappingStore {
    defaults: Vec<BookMapping>,
    /// For each default, whether none after it has its id, so that a reset looks for none.
    lasts: Vec<bool>,
    /// By the literal URLs that they are known by, and those of one URL in the order of choice. There is room for all
    /// defaults.
    live: Vec<Entry>,
}

// Written out, so that a caller's proof sees one call and not the drop of each part.
impl Drop for MappingStore {
    fn drop(self) {
        let MappingStore {
            defaults: _defaults,
            lasts: _lasts,
            live: _live,
        } = self;
    }
}

impl Model for MappingStore {
    ghost use Rattle.std.specs.Prelude.{◌-◌, map, vec_len};
    ghost use Rattle.std.specs.Vec.{vec_capacity};
    ghost use Rattle.mapping_store.specs.Stored.{Stored};

    ghost Value = { Stored };

    ghost use Rattle.mapping_store.specs.Kept.{placed_of};
    ghost use Rattle.mapping_store.specs.Inner.Entries.{IsStore};

    ghost view = { λ s. record {
      defaults = s.defaults.items;
      live = map placed_of s.live.items;
      room = vec_capacity s.live - vec_len s.live;
    } };

    ghost invariant = { λ s. IsStore s.defaults.items s.lasts.items s.live.items (vec_capacity s.live) };
}

impl MappingStore {
    /// The defaults are live, added by the event with the opening number. Of those with one id the last is live.
    pub fn open(
        alloc: Global,
        defaults: Vec<ReadyMapping>,
        opening: u64,
    ) -> Result<MappingStore, AllocError>
        ensures defaults { IfOk result (λ store. store.defaults ≡ defaults_from 0 defaults.items) }
        ensures live { IfOk result (λ store. IsPermutation (placed_from opening 0 store.defaults) store.live) }
    {
        let defaults = named(alloc, defaults)?;
        let lasts = lasts(alloc, defaults.as_slice())?;
        let mut live = Vec::with_capacity(alloc, defaults.len())?;
        put_defaults(&mut live, opening, defaults.as_slice(), lasts.as_slice());
        Ok(MappingStore {
            defaults,
            lasts,
            live,
        })
    }

    /// How many mappings are live.
    pub fn len(&self) -> usize
        ensures { result ≡ length self.now.live }
    {
        self.live.len()
    }

    /// How many mappings will be live once these are added by one event. It has memory for a while: where that is out,
    /// each id is looked for among all.
    pub fn len_with(&self, mappings: &[BookMapping]) -> usize
        ensures { (number skipped : ℕ) → result
            ≡ length (left_by (event.StopRecording mappings.now skipped ∷ []) self.now.live
            ++ placed_from number 0 mappings.now) }
    {
        if are_new(*self.live.allocator(), self.live.as_slice(), mappings) {
            return self.live.len() + mappings.len();
        }
        count_others(self.live.as_slice(), mappings) + count_ids(mappings)
    }

    /// The mappings that a reset adds. They share their specifications.
    pub fn defaults(&self, alloc: Global) -> Result<Items<Mapping>, AllocError>
        ensures { IfOk result (λ defaults. defaults ≡ self.now.defaults) }
    {
        Ok(Items::from(copies(alloc, self.defaults.as_slice())?))
    }

    /// The live mappings, the newest first. They share their specifications.
    pub fn newest_first(&self, alloc: Global) -> Result<Vec<Mapping>, AllocError>
        ensures { IfOk result (λ listed. IsNewestFirst self.now.live listed.items) }
    {
        newest_first(alloc, self.live.as_slice(), self.defaults.as_slice())
    }

    /// Whether a live mapping plays a part in the scenario.
    pub fn knows(&self, scenario: &str) -> bool
        ensures { IsTrue result ↔ Any (λ p. IsIn scenario.now p.mapping.spec.scenario) self.now.live }
    {
        knows(self.live.as_slice(), self.defaults.as_slice(), scenario)
    }

    /// Whether a live mapping names the state of the scenario.
    pub fn names(&self, scenario: &str, state: &str) -> bool
        ensures { IsTrue result ↔ Any (λ p. Names scenario.now state.now p.mapping.spec.scenario) self.now.live }
    {
        names(
            self.live.as_slice(),
            self.defaults.as_slice(),
            scenario,
            state,
        )
    }

    /// Whether a live mapping has this id.
    pub fn holds(&self, id: MappingId) -> bool
        ensures { IsTrue result ↔ Any (λ p. p.mapping.id ≡ id) self.now.live }
    {
        index_of(self.live.as_slice(), id).is_some()
    }

    /// The live mapping with this id, as it was written.
    pub fn get(&self, id: MappingId) -> Option<&SharedSpec>
        ensures live { IsSome result ↔ Any (λ p. p.mapping.id ≡ id) self.now.live }
        ensures found { IfSome result
            (λ spec. Any (λ p. (p.mapping.id ≡ id) × (p.mapping.spec ≡ spec.now)) self.now.live) }
    {
        let at = index_of(self.live.as_slice(), id)?;
        Some(spec_of(&self.live[at], self.defaults.as_slice()))
    }

    /// The mapping that is chosen for the request in these states of scenarios. Of those with a literal URL it takes a
    /// look at the request's alone, and of them, as of the others, until one is eligible.
    pub fn find(
        &mut self,
        scenarios: &Scenarios,
        request: &mut ParsedRequest<'_>,
    ) -> Result<Option<Mapping>, AllocError>
        ensures found { IfOk result (λ found. MatchOption found
            (IsMissed (state_of scenarios.now) self.old.live request.old)
            (IsChosen (state_of scenarios.now) self.old.live request.old)) }
        ensures same { self.new ≡ self.old }
        ensures same_request { request.new ≡ request.old }
    {
        let defaults = self.defaults.as_mut_slice();
        match best_eligible(self.live.as_mut_slice(), defaults, scenarios, request)? {
            Some(at) => {
                let entry = &self.live[at];
                Ok(Some(Mapping {
                    id: entry.id,
                    spec: spec_of(entry, self.defaults.as_slice()).clone()?,
                }))
            }
            None => Ok(None),
        }
    }

    /// Makes room for mappings, so that adding as many takes no memory.
    pub fn reserve(&mut self, additional: usize) -> Result<(), AllocError>
        ensures ok { OnOk result (additional ≤ self.new.room) }
        ensures same_defaults { self.new.defaults ≡ self.old.defaults }
        ensures same_live { self.new.live ≡ self.old.live }
    {
        self.live.reserve(additional)
    }

    /// Adds a mapping, by the event with this number, in place of the one with its id. Takes no memory.
    pub fn add(&mut self, number: u64, mapping: BookMapping)
        requires { 0 < self.old.room }
        ensures { Follows self.old self.new number (event.Add mapping) }
    {
        replace(&mut self.live, Entry::own(number, 0, mapping));
    }

    /// Adds mappings, by one event. It can't fail: memory that it has for a while only makes it quick.
    pub fn add_all(&mut self, number: u64, mappings: Vec<BookMapping>)
        requires { vec_len mappings ≤ self.old.room }
        ensures { (skipped : ℕ) → Follows self.old self.new number (event.StopRecording mappings.items skipped) }
    {
        put_all(&mut self.live, number, mappings);
    }

    /// Writes the live mapping with this id anew: it keeps its place. Takes no memory.
    pub fn edit(&mut self, mapping: BookMapping) -> bool
        ensures found { IsTrue result ↔ Any (λ p. p.mapping.id ≡ mapping.id) self.old.live }
        ensures after { (number : ℕ) → Follows self.old self.new number (event.Edit mapping.id mapping.spec) }
    {
        match take_out(&mut self.live, mapping.id()) {
            Some(old) => {
                put_in(&mut self.live, Entry::own(old.event, old.index, mapping));
                true
            }
            None => false,
        }
    }

    /// Removes the live mapping with this id.
    pub fn remove(&mut self, id: MappingId) -> bool
        ensures found { IsTrue result ↔ Any (λ p. p.mapping.id ≡ id) self.old.live }
        ensures after { (number : ℕ) → Follows self.old self.new number (event.Delete id) }
    {
        take_out(&mut self.live, id).is_some()
    }

    /// Removes all live mappings.
    pub fn clear(&mut self)
        ensures { (number : ℕ) → Follows self.old self.new number event.DeleteAll }
    {
        self.live.clear();
    }

    /// Makes the defaults the live mappings, by the event with this number. Takes no memory, and builds no matcher.
    pub fn reset(&mut self, number: u64)
        ensures { Follows self.old self.new number event.ResetMappings }
    {
        self.live.clear();
        put_defaults(
            &mut self.live,
            number,
            self.defaults.as_slice(),
            self.lasts.as_slice(),
        );
    }
}
