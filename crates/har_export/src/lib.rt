//! Exchanges as a HAR 1.2 document (W3C Web Performance, "HTTP Archive (HAR) format"), which browsers and proxies read.
//! Contracts cite `specs/Document.antt` (the document and its entries), `specs/Message.antt` (requests and replies),
//! `specs/Content.antt` (bodies), `specs/Pairs.antt` (headers, cookies and queries), `specs/Moment.antt` (moments) and
//! `specs/Errors.antt` (the code of each error).
#![tactic(auto)]

pub mod entries;
pub mod error;
pub mod har;

// The parts of an entry.
mod content;
mod message;
mod moment;
mod pairs;
mod timed;
