// What is answered to who asks a shared book without changing it.
use recorder::recording::{Recording, RecordingStatus};
use request_journal::entry::Entry;
use request_journal::mapping::Mapping;
use request_match::request_matcher::RequestMatcher;
use scenario_core::scenarios::Scenarios;

/// What is answered, a case for each that is asked for. Mappings, requests and exchanges are shared with the book.
/// Where requests are to be matched these are all requests, with the matcher: they are matched after the lock was let
/// go.
#[derive(Drop)]
pub enum ReadAnswer {
    /// The newest first.
    Mappings(Vec<Mapping>),
    /// `None` where no live mapping has the id.
    Mapping(Option<Mapping>),
    /// The newest first.
    Requests(Vec<Entry>),
    /// The newest first.
    Unmatched(Vec<Entry>),
    /// The newest first.
    Find {
        requests: Vec<Entry>,
        matcher: RequestMatcher,
    },
    Count {
        requests: Vec<Entry>,
        matcher: RequestMatcher,
    },
    /// The states, and the live mappings, the newest first, which name the scenarios.
    Scenarios {
        states: Scenarios,
        mappings: Vec<Mapping>,
    },
    RecordingStatus(RecordingStatus),
    Recording(Recording),
}

/// An answer, with the number of the book's last event at the point at which it was read.
#[derive(Drop)]
pub struct Reading {
    pub number: u64,
    pub answer: ReadAnswer,
}
