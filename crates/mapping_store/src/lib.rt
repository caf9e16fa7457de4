// The live mappings of a book: which one is chosen for a request, and what each event does to them. Its contracts cite
// `specs/Stored.antt` (what contracts see of the store, and of a change) and the definitions of `request_journal`.
// How they are kept is hidden from other crates but for `BookMapping` and the copies of the defaults: entries by their
// literal URLs and then in the order of choice, each with the matcher of its mapping (`specs/Kept.antt`).
#![tactic(auto)]

pub mod book_mapping;
mod counts;
pub mod defaults;
mod eligible;
mod entries;
pub mod entry;
mod ids;
mod listing;
pub mod mapping_store;
mod scenario_names;
mod several;
