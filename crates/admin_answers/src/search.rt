// A search among requests, made in portions.
ghost use Rattle.std.specs.Prelude.{◌≡◌, ◌≤◌, false, length, IfOk, OnOk};
ghost use Rattle.std.specs.List.{filter};
ghost use Rattle.admin_answers.specs.Inner.Searched.{found_in, met_by, IsSearched};

use book_history::pick::pick;
use request_journal::entry::Entry;
use request_match::request_matcher::RequestMatcher;
use std::alloc::{AllocError, Global};

/// A portion ends with the first request at which so many bytes were searched.
const PORTION_BYTES: usize = 32_768;

/// What is counted for a request beside its body.
const HEAD_BYTES: usize = 512;

/// Requests, and those that meet a matcher among the ones that were searched.
#[derive(Drop)]
pub(crate) struct Search {
    matcher: RequestMatcher,
    entries: Vec<Entry>,
    /// The first that wasn't searched.
    next: usize,
    found: Vec<Entry>,
}

impl Search {
    pub fn new(alloc: Global, entries: Vec<Entry>, matcher: RequestMatcher) -> Search
        ensures { found_in result ≡ filter (met_by matcher) entries.items }
    {
        Search {
            matcher,
            entries,
            next: 0,
            found: Vec::new(alloc),
        }
    }

    /// Those that were found.
    pub fn found(&self) -> &[Entry]
        requires { IsSearched self.now }
        ensures { result.now ≡ found_in self.now }
    {
        self.found.as_slice()
    }

    /// Searches a portion of those that are left, and says whether there are more.
    pub fn search(&mut self, alloc: Global) -> Result<bool, AllocError>
        ensures same { found_in self.new ≡ found_in self.old }
        ensures all { IfOk result (λ more. more ≡ false → IsSearched self.new) }
    {
        let end = portion_end(self.entries.as_slice(), self.next);
        self.search_to(alloc, end)?;
        Ok(end < self.entries.len())
    }

    /// Searches all that are left.
    pub fn search_all(&mut self, alloc: Global) -> Result<(), AllocError>
        ensures same { found_in self.new ≡ found_in self.old }
        ensures all { OnOk result (IsSearched self.new) }
    {
        let end = self.entries.len();
        self.search_to(alloc, end)
    }

    fn search_to(&mut self, alloc: Global, end: usize) -> Result<(), AllocError>
        requires { end ≤ length self.old.entries.items }
        ensures same { found_in self.new ≡ found_in self.old }
        ensures entries { self.new.entries ≡ self.old.entries }
        ensures searched { OnOk result (end ≤ self.new.next) }
    {
        if end <= self.next {
            return Ok(());
        }
        let mut more = pick(alloc, &mut self.matcher, &self.entries[self.next..end])?;
        self.found.append(&mut more)?;
        self.next = end;
        Ok(())
    }
}

// The end of the portion that begins with that entry.
fn portion_end(entries: &[Entry], first: usize) -> usize
    ensures { result ≤ length entries.now }
{
    let mut bytes: usize = 0;
    for index in first..entries.len() {
        if PORTION_BYTES <= bytes {
            return index;
        }
        let body = entries[index].request.request().body().len();
        bytes = bytes.saturating_add(HEAD_BYTES).saturating_add(body);
    }
    entries.len()
}
