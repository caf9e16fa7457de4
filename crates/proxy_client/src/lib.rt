//! A request forwarded to the upstream of a recording, over a connection of its own: the message that is sent (`sent`),
//! the reply (`reply`), and the exchange between them as a future (`client`), which `forward` runs. A server forwards
//! by a `forwarder`.
#![tactic(auto)]

pub mod address;
pub mod answer;
pub mod client;
pub mod content;
pub mod elsewhere;
pub mod error;
pub mod failure;
pub mod forward;
pub mod forwarder;
pub mod forwards;
pub mod interim;
pub mod motion;
pub mod reply;
pub mod sent;
pub mod stage;
pub mod talk;
pub mod target_io;
pub mod timed;
