// What happens between a choice and its response.

/// What is called with the number of a request's event, outside the lock: by `run_scripts` after each request that was
/// served, by a server between the choice of a mapping and its response.
pub trait Gate {
    fn between_choice_and_render(&self, number: u64);
}

/// Nothing happens there.
#[derive(Clone, Copy, Debug, Drop)]
pub struct NoGate;

impl Gate for NoGate {
    fn between_choice_and_render(&self, _number: u64) {}
}
