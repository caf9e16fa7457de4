// What actors hold between the choice of a mapping and the response.
ghost use Rattle.std.specs.Prelude.{◌≡◌, ◌++◌, [], ◌∷◌, ◌<◌, ◌≤◌, vec_len, option_copied};
ghost use Rattle.std.specs.Vec.{vec_capacity};
ghost use Rattle.world_core.specs.Schedule.{chooses, held_after, held_by, held_by_others};

use request_journal::event::{Event, ServeAnswer};
use request_journal::shared_event::SharedEvent;

/// The event that chose a mapping for an actor's request: it has both, the mapping as it was then.
#[derive(Drop)]
pub struct Held {
    pub actor: u64,
    pub event: SharedEvent,
}

// Whether the event chose a mapping for a request.
fn chooses(event: &Event) -> bool
    ensures { result ≡ chooses event.now }
{
    match event {
        Event::Serve { answer, .. } => matches!(answer, ServeAnswer::Stub(_)),
        _ => false,
    }
}

/// What the actor holds.
pub(crate) fn held_by(held: &[Held], actor: u64) -> Option<&Held>
    ensures { option_copied result ≡ held_by actor held.now }
{
    held.iter().find(|one| one.actor == actor)
}

/// Lets go of what the actor holds.
pub(crate) fn let_go(held: &mut Vec<Held>, actor: u64)
    ensures others { held.new.items ≡ held_by_others actor held.old.items }
    ensures capacity { vec_capacity held.new ≡ vec_capacity held.old }
    ensures fewer { vec_len held.new ≤ vec_len held.old }
{
    held.retain(|one| one.actor != actor);
}

/// After its event an actor holds the event, if it chose a mapping for a request, and else what it held.
pub(crate) fn hold(held: &mut Vec<Held>, actor: u64, event: SharedEvent)
    requires room { vec_len held.old < vec_capacity held.old }
    ensures { held.new.items ≡ held_after actor event held.old.items }
{
    if chooses(event.event()) {
        put(held, Held { actor, event });
    }
}

// The actor holds this, and nothing else.
fn put(held: &mut Vec<Held>, new: Held)
    requires room { vec_len held.old < vec_capacity held.old }
    ensures { held.new.items ≡ held_by_others new.actor held.old.items ++ new ∷ [] }
{
    let_go(held, new.actor);
    let Ok(()) = held.push(new) else {
        unreachable!()
    };
}
