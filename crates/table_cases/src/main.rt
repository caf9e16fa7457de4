//! Compares what templates and their parts, mapping documents, requests, recordings, scenarios and books give with the
//! tables in `data/`.
#![tactic(auto)]

// The tables.
mod books;
mod documents;
mod language;
mod recorded;
mod scenarios;
mod table;

// What a book is given, made of the words of a cell, and what it answers, as cells.
mod answers;
mod copies;
mod inputs;
mod mappings;
mod words;

use case_table::compare::compare_all;
use std::io;
use std::process::ExitCode;
use table::Table;

fn main(rt: HostRuntime) -> io::Result<ExitCode> {
    compare_all(
        &rt,
        [
            Table::ErrorCodes,
            Table::Values,
            Table::Lookups,
            Table::Items,
            Table::Roots,
            Table::Texts,
            Table::Paths,
            Table::Parts,
            Table::Printed,
            Table::Bindings,
            Table::Sizes,
            Table::Helpers,
            Table::Signatures,
            Table::Parameters,
            Table::Trees,
            Table::Compiled,
            Table::Listings,
            Table::Codes,
            Table::HelperCodes,
            Table::LoopCodes,
            Table::LoopRuns,
            Table::Writes,
            Table::Language,
            Table::Escaped,
            Table::Requests,
            Table::NamedValues,
            Table::SameTemplates,
            Table::Documents,
            Table::Matchers,
            Table::Ready,
            Table::Groups,
            Table::Targets,
            Table::RecordingCalls,
            Table::Exchanges,
            Table::Keys,
            Table::Recordings,
            Table::Hars,
            Table::Scenarios,
            Table::Books,
        ]
        .as_slice(),
    )
}
