// The entries of a list, and what stands after them.
ghost use Rattle.std.specs.Prelude.{◌≡◌, ◌<◌, ◌++◌, false, Some, length, IfOk, OnOk, slice_get, string_bytes};
ghost use Rattle.admin_answers.specs.Inner.Joined.{end_of, texts_in, IsAllSearched};

use crate::mapping_texts::MappingTexts;
use crate::search::Search;
use admin_json::requests::entry_text;
use har_export::entries::HarEntries;
use itoa::Buffer;
use request_journal::entry::Entry;
use std::alloc::{AllocError, Global};

/// The entries of a list.
#[derive(Drop)]
pub(crate) enum Entries {
    Requests(Vec<Entry>),
    /// The requests that are found.
    Found(Search),
    /// How many are found, which is the one entry.
    Count(Search),
    Mappings {
        texts: MappingTexts,
        /// What stands after their list.
        end: String,
    },
    Exchanges(HarEntries),
}

impl Entries {
    /// Searches a portion of what is left to be searched, and says whether there is more.
    pub fn search(&mut self, alloc: Global) -> Result<bool, AllocError>
        ensures texts { texts_in self.new ≡ texts_in self.old }
        ensures end { end_of self.new ≡ end_of self.old }
        ensures all { IfOk result (λ more. more ≡ false → IsAllSearched self.new) }
    {
        match self {
            Entries::Found(search) => search.search(alloc),
            Entries::Count(search) => search.search(alloc),
            _ => Ok(false),
        }
    }

    /// Searches all that is left to be searched.
    pub fn search_all(&mut self, alloc: Global) -> Result<(), AllocError>
        ensures texts { texts_in self.new ≡ texts_in self.old }
        ensures end { end_of self.new ≡ end_of self.old }
        ensures all { OnOk result (IsAllSearched self.new) }
    {
        match self {
            Entries::Found(search) => search.search_all(alloc),
            Entries::Count(search) => search.search_all(alloc),
            _ => Ok(()),
        }
    }

    pub fn len(&self) -> usize
        requires { IsAllSearched self.now }
        ensures { result ≡ length (texts_in self.now) }
    {
        match self {
            Entries::Requests(entries) => entries.len(),
            Entries::Found(search) => search.found().len(),
            Entries::Count(_) => 1,
            Entries::Mappings { texts, .. } => texts.len(),
            Entries::Exchanges(entries) => entries.len(),
        }
    }

    /// The text of the entry.
    pub fn text(&self, alloc: Global, index: usize) -> Result<String, AllocError>
        requires ready { IsAllSearched self.now }
        requires within { index < length (texts_in self.now) }
        ensures { IfOk result (λ text. slice_get (texts_in self.now) index ≡ Some (string_bytes text)) }
    {
        match self {
            Entries::Requests(entries) => entry_text(alloc, &entries[index]),
            Entries::Found(search) => entry_text(alloc, &search.found()[index]),
            Entries::Count(search) => {
                String::from_str(alloc, Buffer::new().format(search.found().len()))
            }
            Entries::Mappings { texts, .. } => texts.text(alloc, index),
            Entries::Exchanges(entries) => entries.text(alloc, index),
        }
    }

    /// Appends what stands after the last entry.
    pub fn push_end(&self, piece: &mut String) -> Result<(), AllocError>
        ensures { OnOk result (string_bytes piece.new ≡ string_bytes piece.old ++ end_of self.now) }
    {
        match self {
            Entries::Requests(_) | Entries::Found(_) => piece.push_str("]}"),
            Entries::Count(_) => piece.push_str("}"),
            Entries::Mappings { end, .. } => {
                piece.push_str("]")?;
                piece.push_str(end.as_str())
            }
            Entries::Exchanges(_) => piece.push_str("],\"version\":\"1.2\"}}"),
        }
    }
}
