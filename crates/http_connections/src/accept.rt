// The connections of a listener: they are accepted, each becomes a task, and the longest silent one makes room.
pub(crate) mod accepting;
pub mod coarse_clock;
pub mod connection_state;
pub mod connection_task;
pub(crate) mod connects;
mod leaving;
pub(crate) mod pause;
pub mod room;
mod watched;
