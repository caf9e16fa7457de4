// What holds of every schedule. They are laws over the definitions that the calls of this crate cite, so the functions
// do nothing.
ghost use Rattle.std.specs.List.{AllZip};
ghost use Rattle.std.specs.Prelude.{◌≡◌, ◌+◌, ◌≤◌, ℕ, true, List, [], ◌∷◌, ◌++◌, length, map, None, unwrap_or};
ghost use Rattle.mapping_model.specs.declared.reply.Reply.{Reply};
ghost use Rattle.mock_request.specs.Request.{Request};
ghost use Rattle.recorder.specs.Stubs.{mappings_of};
ghost use Rattle.recorder.specs.declared.exchange.Exchange.{Exchange};
ghost use Rattle.recorder.specs.declared.recording.Session.{Session};
ghost use Rattle.request_journal.specs.Choice.{IsChoice};
ghost use Rattle.request_journal.specs.Events.{last_of};
ghost use Rattle.request_journal.specs.Legal.{IsLegal};
ghost use Rattle.request_journal.specs.Past.{Past, defaults_from, last_number, opened};
ghost use Rattle.request_journal.specs.State.{state, touch};
ghost use Rattle.request_journal.specs.declared.event.Captured.{Captured};
ghost use Rattle.request_journal.specs.declared.event.Event.{Event};
ghost use Rattle.request_journal.specs.declared.event.Event.TheVariants.{ClearJournal};
ghost use Rattle.request_journal.specs.declared.event.ServeAnswer.{ServeAnswer};
ghost use Rattle.request_journal.specs.declared.limits.TheConstants.{NUMBER_LIMIT};
ghost use Rattle.shared_book.specs.Reached.{IsLawful, IsPastOf, Lead, Log};
ghost use Rattle.shared_history.specs.Entries.{entry, events};
ghost use Rattle.shared_history.specs.declared.entry.Deed.TheVariants.{Called};
ghost use Rattle.world_core.specs.Laws.{IsAnswered, IsLastChoice, IsOpened, IsServedOnce, events_of, giving, silent};
ghost use Rattle.stub_book.specs.Growth.{Grows, IsServed, repeated};
ghost use Rattle.world_core.specs.Replay.{GivesBack, HasRecorded, IsReplayable, IsStoppedAndReset, replies_of, sending};
ghost use Rattle.world_core.specs.Schedule.{IsRun, IsStep, Outcome, WorldState};
ghost use Rattle.world_core.specs.Shared.{IsRightAfter, IsSameBook, IsScheduled, with_all};
ghost use Rattle.shared_book.specs.declared.script.Call.TheVariants.{Serve};
ghost use Rattle.world_core.specs.declared.step.Step.{Step};
ghost use Rattle.world_core.specs.declared.step.Step.TheVariants.{Act, Finish};

/// The history of each schedule is legal.
#[tactic(auto, using(crate::proofs::LegalRuns::legal_run))]
pub fn law_legal()
    ensures { (start end : WorldState) (steps : List Step) (outcomes : List Outcome)
        → IsLegal start.past → IsRun start steps outcomes end → IsLegal end.past }
{}

/// After each schedule of a book that was just opened there is one choice for a request and no other: no two mappings
/// may be chosen for it.
#[tactic(auto, using(crate::proofs::ChosenRuns::one_choice_after))]
pub fn law_one_choice()
    ensures { (start end : WorldState) (steps : List Step) (outcomes : List Outcome) (request : Request)
        (one other : ServeAnswer) → IsOpened start.past → IsRun start steps outcomes end
        → IsChoice end.past request one → IsChoice end.past request other → one ≡ other }
{}

/// Wherever in a schedule a finish gives a reply, it is the response of the version that was chosen at its actor's act,
/// whatever came between. It gives none only where no mapping was chosen for its actor since that actor's last finish.
pub fn law_response()
    ensures given { (start end : WorldState) (steps after : List Step) (outcomes more : List Outcome)
        (actor : ℕ) (reply : Reply) → start.held ≡ [] → length steps ≡ length outcomes
        → IsRun start (steps ++ Finish actor ∷ after) (outcomes ++ giving reply ∷ more) end
        → IsAnswered start steps outcomes actor reply }
    ensures silent { (start end : WorldState) (steps after : List Step) (outcomes more : List Outcome) (actor : ℕ)
        (request : Request) (captured : Captured) → length steps ≡ length outcomes
        → IsRun start (steps ++ Finish actor ∷ after) (outcomes ++ silent ∷ more) end
        → ¬ (IsLastChoice start steps outcomes actor request captured) }
{}

/// Each request that is served moves its scenario once, where its event is in the history, and a finish moves none.
#[tactic(auto, using(crate::proofs::MovedRuns::moved_run, crate::proofs::MovedRuns::served_once, crate::proofs::MovedRuns::no_move))]
pub fn law_once()
    ensures served { (old new : WorldState) (actor : ℕ) (request : Request) (outcome : Outcome)
        → IsStep old (Act actor (Serve request)) outcome new → IsServedOnce old request outcome.event new }
    ensures finish { (old new : WorldState) (actor : ℕ) (outcome : Outcome)
        → IsStep old (Finish actor) outcome new → (outcome.event ≡ None) × (new.past ≡ old.past) }
    ensures schedule { (start end : WorldState) (steps : List Step) (outcomes : List Outcome) (name : List ℕ)
        → IsRun start steps outcomes end
        → state end.past name ≡ unwrap_or (last_of (touch name) (events_of outcomes)) (state start.past name) }
{}

/// Recorded requests that are sent again, in their order, to a book whose live mappings are those of the recording get
/// the recorded replies.
pub fn law_replay()
    ensures { (captured : List (List ℕ)) (number : ℕ) (exchanges : List Exchange)
        (actor : ℕ) (start end : WorldState)
        (outcomes : List Outcome) → IsReplayable captured exchanges
        → HasRecorded captured number exchanges start.past → IsRun start (sending actor exchanges) outcomes end
        → replies_of outcomes ≡ map (λ e. e.reply) exchanges }
{}

/// A recording that is stopped where no other mapping is live leaves a past that is ready for its requests, once the
/// scenarios are reset and if no two of its mappings have one id; so is a book that is opened with its mappings. The
/// number of the stop is that of the mappings.
pub fn law_recording_is_ready()
    ensures stopped { (old ready : Past) (session : Session) → IsStoppedAndReset old session ready
        → HasRecorded session.captured (last_number old + 1) session.exchanges ready }
    ensures opened { (captured : List (List ℕ)) (number opening : ℕ) (exchanges : List Exchange)
        → repeated (defaults_from 0 (mappings_of captured exchanges true number)) ≡ 0
        → opening + length exchanges ≤ NUMBER_LIMIT
        → HasRecorded captured number exchanges (opened opening (mappings_of captured exchanges true number)) }
{}

/// What the seats of a shared book have entered in its one history, or in a beginning of it, leads to a past: so
/// whoever has seen such a beginning may take one for the laws below.
pub fn law_shared_has_past()
    ensures { (origin : Past) (log : Log) → IsLawful origin log → (past : Past) × IsPastOf origin log past }
{}

/// What the seats of a shared book have entered in its one history, or in a beginning of it, is a schedule, in which
/// each call is an act of its seat, with the very events of that: so `law_legal`, `law_one_choice` and `law_once` hold
/// of it.
#[tactic(auto, using(crate::proofs::SharedRuns::scheduled))]
pub fn law_shared_is_scheduled()
    ensures { (start : WorldState) (log : Log) (past : Past) → IsPastOf start.past log past
        → IsScheduled start log past }
{}

/// Wherever a call stands in that history, its event is the right answer in the past that the calls before it lead to,
/// and it moves each scenario that it touches once, and no other.
pub fn law_shared_is_right()
    ensures { (origin past : Past) (before after : Log) (seat : ℕ) (event : Event)
        → IsPastOf origin (before ++ entry seat (Called event) ∷ after) past
        → IsRightAfter origin before event (before ++ entry seat (Called event) ∷ []) }
{}

/// After the calls of that history, where it began with a book that was just opened, there is one choice for a request
/// and no other.
#[tactic(auto, using(crate::proofs::SharedRuns::one_choice_of))]
pub fn law_shared_has_one_choice()
    ensures { (origin past : Past) (log : Log) (request : Request) (one other : ServeAnswer) → IsOpened origin
        → IsPastOf origin log past → IsChoice past request one → IsChoice past request other → one ≡ other }
{}

/// Recorded requests that whichever seats serve, in their order and with no other call between, after a past that is
/// ready for them: each is answered by a version whose response is the recorded reply.
pub fn law_shared_replays()
    ensures { (captured : List (List ℕ)) (number : ℕ) (exchanges : List Exchange) (start past : Past) (log : Log)
        → IsReplayable captured exchanges → HasRecorded captured number exchanges start → IsPastOf start log past
        → AllZip (λ exchange served. IsServed exchange.request served) exchanges (events log)
        → AllZip GivesBack exchanges (events log) }
{}

/// The events of each schedule lead from the past before it to the one after it, each the right answer in the past
/// before it: as the events of a shared book's history do.
#[tactic(auto, using(crate::proofs::LeadRuns::run_leads))]
pub fn law_schedule_leads()
    ensures { (start end : WorldState) (steps : List Step) (outcomes : List Outcome)
        → IsRun start steps outcomes end → Lead start.past (events_of outcomes) end.past }
{}

/// A checkpoint drops events, and not what they left: after events of a schedule or of a shared book's history, some of
/// which may be dropped, the book is the same as with all of them, and as many numbers are given; and each of all these
/// events is the right answer in the past with all events before it. One that clears the journal leaves the book as it
/// was.
pub fn law_checkpoint_keeps_the_book()
    ensures same { (old new : Past) (events : List Event) → Lead old events new → IsSameBook (with_all old events) new }
    ensures number { (old new : Past) (events : List Event) → Lead old events new
        → last_number new ≡ last_number (with_all old events) }
    ensures legal { (old new : Past) (events : List Event) → IsLegal old → Lead old events new
        → IsLegal (with_all old events) }
    ensures clear { (old new : Past) → Grows old new ClearJournal → IsSameBook old new }
{}
