//! The server's connections, answered by a site: those of a listener, each with a seat of its own. How requests are
//! gathered and where seats lie is `http_connections`'; what the answer to a request is, `answering`'s.
#![tactic(auto)]

pub mod forward_exchange;
pub mod journal_limit;
pub mod log;
pub mod outcome;
pub mod render_exchange;
pub mod renderer;
pub mod renders;
mod report;
pub mod serving;
pub mod site_answers;
pub mod site_exchange;
