// The text of a list, written piece by piece.
ghost use Rattle.std.specs.Prelude.{◌≡◌, ◌≢◌, ◌↔◌, ◌+◌, ◌^◌, ◌<◌, ◌≤◌, ◌++◌, ℕ, List, [], false, Some, codes, length};
ghost use Rattle.std.specs.Prelude.{string_bytes, IfOk, OnOk, OnErr, IsErrOf, MatchOption};
ghost use Rattle.std.specs.List.{AllByRecursion};
ghost use Rattle.admin_json.specs.Mappings.{json_of_mappings};
ghost use Rattle.admin_json.specs.Recordings.{json_of_recorded};
ghost use Rattle.admin_json.specs.Requests.{json_of_found, json_of_number, json_of_requests};
ghost use Rattle.admin_answers.specs.Inner.Joined.{end_of_mappings, end_of_recorded, head_of_requests, joined};
ghost use Rattle.admin_answers.specs.Inner.Joined.{left_of, texts_in, IsAllSearched};
ghost use Rattle.har_export.specs.Document.{AreInRange, IsHarText};
ghost use Rattle.request_journal.specs.Journal.{IsCount, Picks};
ghost use Rattle.request_match.specs.Matching.{MeetsRequest};
ghost use Rattle.serde_json.specs.Data.{depth};
ghost use Rattle.serde_json.specs.Read.{max_depth, read};
ghost use Rattle.serde_json.specs.Written.{comma_if, compact_text};
ghost use Rattle.request_journal.specs.declared.entry.Entry.{Entry};

use crate::entries::Entries;
use crate::mapping_texts::MappingTexts;
use crate::search::Search;
use admin_json::mappings::law_each_is_whole;
use har_export::entries::HarEntries;
use har_export::error::HarError;
use itoa::Buffer;
use recorder::exchange::SharedExchange;
use recorder::target::Target;
use request_journal::entry::Entry;
use request_journal::mapping::Mapping;
use request_match::request_matcher::RequestMatcher;
use std::alloc::{AllocError, Global};
use std::marker::Model;

/// A piece ends with the first entry at which it has so many bytes.
pub const PIECE_BYTES: usize = 32_768;

/// The text of a list that is still to be given, which contracts see as its bytes. Only references to the entries are
/// kept, so that a list of any length takes little memory.
#[derive(Drop)]
pub struct Listing {
    /// What stands before the next entry.
    head: String,
    entries: Entries,
    /// The next entry; `None` where all was given.
    next: Option<usize>,
}

impl Model for Listing {
    ghost use Rattle.std.specs.Prelude.{ℕ, List, string_bytes};
    ghost use Rattle.admin_answers.specs.Inner.Joined.{left_of};

    ghost Value = { List ℕ };

    ghost view = { λ l. left_of (string_bytes l.head) l.entries l.next };
}

impl Listing {
    /// The requests, in the order that is given, and how many there are.
    pub fn of_requests(alloc: Global, entries: Vec<Entry>) -> Result<Listing, AllocError>
        ensures text { IfOk result (λ listing. listing ≡ compact_text (json_of_requests entries.items)) }
        ensures reads_back { IfOk result (λ listing.
            AllByRecursion (λ entry. entry.number < 2 ^ 64) entries.items
            → depth (json_of_requests entries.items) ≤ max_depth
            → read listing ≡ Some (json_of_requests entries.items)) }
    {
        let head = head_of_requests(alloc, entries.len())?;
        Ok(new_listing(head, Entries::Requests(entries)))
    }

    /// The requests that were found, in the order that is given.
    pub fn of_found(alloc: Global, entries: Vec<Entry>) -> Result<Listing, AllocError>
        ensures text { IfOk result (λ listing. listing ≡ compact_text (json_of_found entries.items)) }
        ensures reads_back { IfOk result (λ listing.
            AllByRecursion (λ entry. entry.number < 2 ^ 64) entries.items
            → depth (json_of_found entries.items) ≤ max_depth
            → read listing ≡ Some (json_of_found entries.items)) }
    {
        let head = String::from_str(alloc, "{\"requests\":[")?;
        Ok(new_listing(head, Entries::Requests(entries)))
    }

    /// The requests that meet the matcher, in the order that is given.
    pub fn of_search(
        alloc: Global,
        entries: Vec<Entry>,
        matcher: RequestMatcher,
    ) -> Result<Listing, AllocError>
        ensures text { IfOk result (λ listing. (found : List Entry)
            × Picks (λ entry. MeetsRequest matcher entry.request) entries.items found
            × (listing ≡ compact_text (json_of_found found))
            × (AllByRecursion (λ entry. entry.number < 2 ^ 64) entries.items
            → depth (json_of_found found) ≤ max_depth → read listing ≡ Some (json_of_found found))) }
    {
        let head = String::from_str(alloc, "{\"requests\":[")?;
        Ok(new_listing(head, Entries::Found(Search::new(alloc, entries, matcher))))
    }

    /// How many of the requests meet the matcher.
    pub fn of_count(
        alloc: Global,
        entries: Vec<Entry>,
        matcher: RequestMatcher,
    ) -> Result<Listing, AllocError>
        ensures text { IfOk result (λ listing. (count : ℕ)
            × IsCount (λ entry. MeetsRequest matcher entry.request) entries.items count
            × (listing ≡ compact_text (json_of_number count))
            × (read listing ≡ Some (json_of_number count))) }
    {
        // For its clause: a number of 64 bits has room for the count.
        let _total = entries.len();
        let head = String::from_str(alloc, "{\"count\":")?;
        Ok(new_listing(head, Entries::Count(Search::new(alloc, entries, matcher))))
    }

    /// The mappings, in the order that is given, and how many there are.
    pub fn of_mappings(alloc: Global, mappings: &[Mapping]) -> Result<Listing, AllocError>
        ensures text { IfOk result (λ listing. listing ≡ compact_text (json_of_mappings mappings.now)) }
        ensures reads_back { IfOk result (λ listing. depth (json_of_mappings mappings.now) ≤ max_depth
            → read listing ≡ Some (json_of_mappings mappings.now)) }
    {
        // For the proof alone: the text of each is known.
        law_each_is_whole(mappings);
        let texts = MappingTexts::new(alloc, mappings)?;
        let total = mappings.len();
        let end = end_of_mappings(alloc, total)?;
        mapping_listing(alloc, texts, end)
    }

    /// The mappings that were recorded, in the order that is given, and how many exchanges were skipped.
    pub fn of_recorded(
        alloc: Global,
        mappings: &[Mapping],
        skipped: u64,
    ) -> Result<Listing, AllocError>
        ensures text { IfOk result (λ listing. listing ≡ compact_text (json_of_recorded mappings.now skipped)) }
        ensures reads_back { IfOk result (λ listing. depth (json_of_recorded mappings.now skipped) ≤ max_depth
            → read listing ≡ Some (json_of_recorded mappings.now skipped)) }
    {
        // For the proof alone: the text of each is known.
        law_each_is_whole(mappings);
        let texts = MappingTexts::new(alloc, mappings)?;
        let end = end_of_recorded(alloc, skipped)?;
        mapping_listing(alloc, texts, end)
    }

    /// The HAR document of exchanges with the upstream. An exchange that started too late is reported before any memory
    /// is taken.
    pub fn of_exchanges(
        alloc: Global,
        exchanges: &[SharedExchange],
        target: &Target,
    ) -> Result<Listing, HarError>
        ensures text { IfOk result (λ listing. IsHarText target.now exchanges.now listing) }
        ensures out_of_range { IsErrOf result HarError.MomentOutOfRange ↔ ¬ (AreInRange exchanges.now) }
    {
        let entries = HarEntries::new(alloc, exchanges, target)?;
        let head = String::from_str(
            alloc,
            "{\"log\":{\"creator\":{\"name\":\"mock\",\"version\":\"1\"},\"entries\":[",
        )?;
        Ok(new_listing(head, Entries::Exchanges(entries)))
    }

    /// Searches a portion of the requests that are left to be searched, and says whether there are more. What is to
    /// be given stays: who asks this until there are no more can serve others in between, where `next` searches them
    /// all at once.
    pub fn search(&mut self, alloc: Global) -> Result<bool, AllocError>
        ensures { self.new ≡ self.old }
    {
        self.entries.search(alloc)
    }

    /// The next piece, which is not empty, or `None` where all was given. After an error nothing was given.
    pub fn next(&mut self, alloc: Global) -> Result<Option<String>, AllocError>
        ensures given { IfOk result (λ given. MatchOption given ((self.old ≡ []) × (self.new ≡ []))
            (λ piece. (string_bytes piece ≢ []) × (self.old ≡ string_bytes piece ++ self.new))) }
        ensures err { OnErr result (self.new ≡ self.old) }
    {
        let Some(first) = self.next else {
            return Ok(None);
        };
        self.entries.search_all(alloc)?;
        let (piece, next) = piece_from(alloc, self.head.as_str(), &self.entries, first)?;
        self.head.clear();
        self.next = next;
        Ok(Some(piece))
    }
}

fn head_of_requests(alloc: Global, total: usize) -> Result<String, AllocError>
    ensures { IfOk result (λ head. string_bytes head ≡ head_of_requests total) }
{
    let mut head = String::from_str(alloc, "{\"meta\":{\"total\":")?;
    head.push_str(Buffer::new().format(total))?;
    head.push_str("},\"requests\":[")?;
    Ok(head)
}

fn end_of_mappings(alloc: Global, total: usize) -> Result<String, AllocError>
    ensures { IfOk result (λ end. string_bytes end ≡ end_of_mappings total) }
{
    let mut end = String::from_str(alloc, ",\"meta\":{\"total\":")?;
    end.push_str(Buffer::new().format(total))?;
    end.push_str("}}")?;
    Ok(end)
}

fn end_of_recorded(alloc: Global, skipped: u64) -> Result<String, AllocError>
    ensures { IfOk result (λ end. string_bytes end ≡ end_of_recorded skipped) }
{
    let mut end = String::from_str(alloc, ",\"skipped\":")?;
    end.push_str(Buffer::new().format(skipped))?;
    end.push_str("}")?;
    Ok(end)
}

fn mapping_listing(alloc: Global, texts: MappingTexts, end: String) -> Result<Listing, AllocError>
    ensures { IfOk result (λ listing.
        listing ≡ codes "{\"mappings\":[" ++ joined (codes "]" ++ string_bytes end) false texts) }
{
    let head = String::from_str(alloc, "{\"mappings\":[")?;
    Ok(new_listing(head, Entries::Mappings { texts, end }))
}

fn new_listing(head: String, entries: Entries) -> Listing
    ensures { result ≡ left_of (string_bytes head) entries (Some 0) }
{
    Listing {
        head,
        entries,
        next: Some(0),
    }
}

/// The text from that entry on, with what stands before it, as far as a piece has it; and the entry after these, or
/// `None` where it ends the list.
fn piece_from(
    alloc: Global,
    head: &str,
    entries: &Entries,
    first: usize,
) -> Result<(String, Option<usize>), AllocError>
    requires { IsAllSearched entries.now }
    ensures some { IfOk result (λ made. string_bytes made.0 ≢ []) }
    ensures text { IfOk result (λ made. left_of head.now entries.now (Some first)
        ≡ string_bytes made.0 ++ left_of [] entries.now made.1) }
{
    let mut piece = String::with_capacity(alloc, PIECE_BYTES)?;
    piece.push_str(head)?;
    for index in first..entries.len() {
        if PIECE_BYTES <= piece.len() {
            return Ok((piece, Some(index)));
        }
        push_entry(alloc, &mut piece, entries, index)?;
    }
    entries.push_end(&mut piece)?;
    Ok((piece, None))
}

/// Appends the entry, after a comma unless it is the first.
fn push_entry(
    alloc: Global,
    piece: &mut String,
    entries: &Entries,
    index: usize,
) -> Result<(), AllocError>
    requires ready { IsAllSearched entries.now }
    requires within { index < length (texts_in entries.now) }
    ensures { OnOk result (string_bytes piece.old ++ left_of [] entries.now (Some index)
        ≡ string_bytes piece.new ++ left_of [] entries.now (Some (index + 1))) }
{
    push_comma(piece, 0 < index)?;
    let text = entries.text(alloc, index)?;
    piece.push_str(text.as_str())?;
    Ok(())
}

fn push_comma(piece: &mut String, later: bool) -> Result<(), AllocError>
    ensures { OnOk result (string_bytes piece.new ≡ string_bytes piece.old ++ comma_if later) }
{
    if later {
        piece.push_str(",")?;
    }
    Ok(())
}
