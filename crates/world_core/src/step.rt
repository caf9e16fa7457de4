// The steps of a schedule.
use shared_book::script::Call;

/// A step of an actor. Actors are told apart by their numbers.
#[derive(Drop)]
pub enum Step {
    Act { actor: u64, call: Call },
    /// The response of the mapping that was chosen for the actor's last request.
    Finish { actor: u64 },
}
