//! The tables, and which call each of them is about.

use crate::documents::{mappings, matchers, path_templates, ready, snapshots};
use crate::language::{
    code, error_codes, helpers, json_texts, programs, requests, templates, values, writes,
};
use crate::recorded::{groups, hars, mappings as recorded, recordings};
use crate::{books, scenarios};
use case_table::compare::CaseTable;
use case_table::row::Row;
use std::alloc::{AllocError, Global};
use template_tree::escape::Escape;

/// A table, named for what it has in each row.
#[derive(Clone, Copy)]
pub enum Table {
    ErrorCodes,
    Values,
    Lookups,
    Items,
    Roots,
    Texts,
    Paths,
    Parts,
    Printed,
    Bindings,
    Sizes,
    Helpers,
    Signatures,
    Parameters,
    Trees,
    Compiled,
    Listings,
    Codes,
    HelperCodes,
    /// Code with loops or escapes.
    LoopCodes,
    /// Its runs.
    LoopRuns,
    Writes,
    /// Templates as programs.
    Language,
    /// The same, whose prints are escaped for HTML.
    Escaped,
    /// What copies of requests give back.
    Requests,
    /// What matchers see of requests.
    NamedValues,
    SameTemplates,
    /// Documents of single mappings, whose results an independent program computed.
    Documents,
    /// Request matchers by themselves.
    Matchers,
    /// Mappings that are ready to be served.
    Ready,
    Groups,
    Targets,
    /// Calls of a recording.
    RecordingCalls,
    /// Whether two exchanges are the same, and whether their keys are equal.
    Exchanges,
    Keys,
    Recordings,
    Hars,
    Scenarios,
    Books,
}

impl CaseTable for Table {
    fn file(self) -> &'static str {
        match self {
            Table::ErrorCodes => "error_codes.tsv",
            Table::Values => "values.tsv",
            Table::Lookups => "lookups.tsv",
            Table::Items => "items.tsv",
            Table::Roots => "roots.tsv",
            Table::Texts => "texts.tsv",
            Table::Paths => "paths.tsv",
            Table::Parts => "parts.tsv",
            Table::Printed => "printed.tsv",
            Table::Bindings => "bindings.tsv",
            Table::Sizes => "sizes.tsv",
            Table::Helpers => "helper_results.tsv",
            Table::Signatures => "signatures.tsv",
            Table::Parameters => "parameters.tsv",
            Table::Trees => "trees.tsv",
            Table::Compiled => "compiled.tsv",
            Table::Listings => "listings.tsv",
            Table::Codes => "codes.tsv",
            Table::HelperCodes => "helper_codes.tsv",
            Table::LoopCodes => "loop_codes.tsv",
            Table::LoopRuns => "loop_runs.tsv",
            Table::Writes => "writes.tsv",
            Table::Language => "language.tsv",
            Table::Escaped => "language_escaped.tsv",
            Table::Requests => "requests.tsv",
            Table::NamedValues => "named_values.tsv",
            Table::SameTemplates => "same_templates.tsv",
            Table::Documents => "documents.tsv",
            Table::Matchers => "matchers.tsv",
            Table::Ready => "ready.tsv",
            Table::Groups => "groups.tsv",
            Table::Targets => "targets.tsv",
            Table::RecordingCalls => "recording_calls.tsv",
            Table::Exchanges => "exchanges.tsv",
            Table::Keys => "keys.tsv",
            Table::Recordings => "recordings.tsv",
            Table::Hars => "hars.tsv",
            Table::Scenarios => "scenarios.tsv",
            Table::Books => "books.tsv",
        }
    }

    fn answer(self, alloc: Global, row: &Row) -> Result<String, AllocError> {
        match self {
            Table::ErrorCodes => error_codes::code(alloc, row.cell(0)),
            Table::Values => values::described(alloc, row.cell(0)),
            Table::Lookups => values::found(alloc, row.cell(0), row.cell(1)),
            Table::Items => values::item(alloc, row.cell(0), row.cell(1)),
            Table::Roots => values::root_size(alloc, row.cell(0)),
            Table::Texts => json_texts::value_of_text(alloc, row.cell(0)),
            Table::Paths => json_texts::steps_of_path(alloc, row.cell(0)),
            Table::Parts => requests::part(alloc, row),
            Table::Printed => requests::printed_part(alloc, row),
            Table::Bindings => requests::bindings(alloc, row),
            Table::Sizes => requests::size(alloc, row),
            Table::Helpers => helpers::result(alloc, row.cell(0), row.cell(1), row.cell(2)),
            Table::Signatures => helpers::signature_of(alloc, row.cell(0)),
            Table::Parameters => helpers::accepted(alloc, row.cell(0)),
            Table::Trees => templates::tree(alloc, row.cell(0)),
            Table::Compiled => templates::compiled(alloc, row.cell(0)),
            Table::Listings => code::listed(alloc, row),
            Table::Codes | Table::HelperCodes | Table::LoopCodes => code::verdict(alloc, row),
            Table::LoopRuns => code::run_over(alloc, row),
            Table::Writes => writes::written(alloc, row),
            Table::Language => programs::rendered(alloc, row, Escape::Off),
            Table::Escaped => programs::rendered(alloc, row, Escape::Html),
            Table::Requests => snapshots::kept(alloc, row),
            Table::NamedValues => snapshots::named_values(alloc, row),
            Table::SameTemplates => path_templates::same(alloc, row),
            Table::Documents => mappings::of_text(alloc, row),
            Table::Matchers => matchers::answer(alloc, row),
            Table::Ready => ready::answer(alloc, row),
            Table::Groups => groups::places(alloc, row),
            Table::Targets => recordings::target(alloc, row),
            Table::RecordingCalls => recordings::calls(alloc, row),
            Table::Exchanges => recorded::same(alloc, row),
            Table::Keys => recorded::key(alloc, row),
            Table::Recordings => recorded::recorded(alloc, row),
            Table::Hars => hars::text(alloc, row),
            Table::Scenarios => scenarios::calls(alloc, row),
            Table::Books => books::answers(alloc, row),
        }
    }
}
