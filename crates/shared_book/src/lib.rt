//! One book for several threads. A lock keeps it, each accepted call is one event under it, and who makes calls has a
//! seat, which keeps a receipt for each. Once all seats are there, `settle` compares the numbers of their receipts with
//! the book's history: they are those of one history, none missing or doubled, and each has the event that the history
//! keeps under its number.
#![tactic(auto)]

mod audit;
mod base;
pub mod book_read;
mod compare;
mod counted;
mod entered;
pub mod gate;
mod gather;
pub mod history;
mod lines;
mod locked;
mod look;
mod misplaced;
mod numbers;
pub mod origin;
mod pile;
pub mod receipt;
mod receipt_list;
mod rule;
pub mod script;
pub mod seat;
pub mod settle;
pub mod settled;
pub mod shared_book;
mod short_lists;
