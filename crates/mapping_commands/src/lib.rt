//! `mock check`: which mappings of a document or a file are taken, and the budgets of their templates, added up. And
//! `mock answer`: the reply to one request of a book that was just opened with the mappings of a document or a file. And
//! `mock explain`: which of these mappings answers a request, and why each other one doesn't. None knows of the command
//! line. Contracts cite `specs/Checking.antt` (the lines that are printed, and how a check ends), `specs/Answering.antt`
//! (the reply as it is printed, the errors and their order, and how an answer ends) and `specs/Explaining.antt` (which
//! mapping answers, and how an explanation ends).
#![tactic(auto)]

pub mod answer;
mod as_json;
mod budgets;
pub mod check;
pub mod explain;
mod explanation;
pub mod fresh;
pub mod notes;
mod printed;
pub mod sent;
mod text;
