// How a server's requests are answered: a request is an admin call or one serve of the shared book, and its response is
// made outside the lock, or it is forwarded and its reply is recorded. It knows messages of `http`, and no connections.
// Contracts cite `specs/Served.antt` (the reply to a request that was served), `specs/Forwarding.antt` (that to one
// that is forwarded), `specs/Rendering.antt` (that to one whose response takes long), `specs/Admin.antt` (that to an
// admin call), `specs/Page.antt` (the page), `specs/Reason.antt` (that to a call which is refused), `specs/Reply.antt`
// (the response of `http` that a reply is), `specs/Content.antt` (the frames of its body) and `specs/Answering.antt`
// (the response to a message).
#![tactic(auto)]

mod admin_answer;
pub mod begin;
mod begin_event;
mod begin_message;
pub mod begun;
pub mod clock;
pub mod content;
pub mod finish;
mod foreign;
pub mod forward;
mod header;
mod mapping_response;
mod page;
pub mod refused;
pub mod rendering;
mod response;
mod serve;
pub mod site;
mod slow;
