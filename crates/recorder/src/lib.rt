// What a recording is: its target, the exchanges that it takes, and the key by which they are grouped; and what is sent
// to a target for a request, and relayed of the reply. Nothing here opens a connection. Its contracts cite
// `specs/Target.antt` (which texts are targets), `specs/Recording.antt` (what a recording takes), `specs/Key.antt`
// (keys), `specs/Forwarding.antt` (what is sent and relayed), `specs/Connection.antt` (which headers are a connection's
// own) and `specs/ForwardCount.antt` (how often a request was forwarded).
#![tactic(auto)]

mod connection;
pub mod error;
pub mod exchange;
pub mod exchanges;
pub mod forward_count;
pub mod forwarding;
pub mod key;
pub mod recording;
pub mod target;
mod target_text;
