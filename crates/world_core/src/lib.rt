// Schedules over one book: steps of actors, which act, and finish with the response of what was chosen for them. A
// world makes such steps on a real book, and laws say what holds of every schedule. Its contracts cite
// `specs/Schedule.antt` (what a step does), `specs/Laws.antt` and `specs/Replay.antt` (what the laws say).
#![tactic(auto)]

pub mod held;
pub mod laws;
pub mod run;
pub mod step;
pub mod world;
