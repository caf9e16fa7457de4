//! The server's connections: requests of HTTP/1.1 over the sockets of a listener of `tokio`. It knows how a request is
//! gathered, which seat answers it, and where the seat is kept; what the answer is, says who implements `Answers`.
#![tactic(auto)]

pub mod accept;
pub mod answers;
pub mod ender;
pub mod request;
pub mod seats;
pub mod serve_io;
pub mod serve_on;
pub mod settings;
pub mod threads;
