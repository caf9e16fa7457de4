// The mappings of documents of which some are refused.
ghost use Rattle.std.specs.Prelude.{◌≡◌, ◌++◌, IfOk, List, OnOk, map};
ghost use Rattle.mapping_model.specs.declared.mapping_spec.MappingSpec.{MappingSpec};
ghost use Rattle.mapping_files.specs.Served.{AreAccepted, SpellAccepted, accepted_of};

use mapping_json::error::MappingError;
use mapping_json::read::read_each_with;
use request_match::ready_mapping::ReadyMapping;
use std::alloc::{AllocError, Global};
use template_tree::escape::Escape;

/// The mappings that are accepted, and how many aren't.
#[derive(Drop)]
pub(crate) struct Accepted {
    pub(crate) mappings: Vec<ReadyMapping>,
    pub(crate) skipped: Skipped,
}

/// What is left out.
#[derive(Clone, Copy)]
pub(crate) struct Skipped {
    pub(crate) mappings: u64,
    /// Files that have no mappings, as they aren't JSON, or have no list of them.
    pub(crate) files: u64,
}

impl Skipped {
    pub(crate) fn none() -> Skipped {
        Skipped {
            mappings: 0,
            files: 0,
        }
    }

    pub(crate) fn is_none(self) -> bool {
        self.mappings == 0 && self.files == 0
    }
}

/// The mappings of the documents that are accepted, those of one document after those of the one before.
pub(crate) fn accepted_of(
    alloc: Global,
    texts: &[Vec<u8>],
    escape: Escape,
) -> Result<Accepted, AllocError>
    ensures { IfOk result (λ accepted.
        SpellAccepted escape (map (λ text. text.items) texts.now) accepted.mappings.items) }
{
    let mut accepted = Accepted {
        mappings: Vec::new(alloc),
        skipped: Skipped::none(),
    };
    for text in texts {
        add_document(alloc, &mut accepted, text.as_slice(), escape)?;
    }
    Ok(accepted)
}

fn add_document(
    alloc: Global,
    accepted: &mut Accepted,
    bytes: &[u8],
    escape: Escape,
) -> Result<(), AllocError>
    ensures { OnOk result ((own : List MappingSpec) × AreAccepted escape bytes.now own
        × (accepted.new.mappings.items ≡ accepted.old.mappings.items ++ own)) }
{
    match read_each_with(alloc, bytes, escape) {
        Ok(results) => add_results(accepted, results),
        Err(MappingError::OutOfMemory) => Err(AllocError),
        Err(_error) => {
            accepted.skipped.files = accepted.skipped.files.saturating_add(1);
            Ok(())
        }
    }
}

fn add_results(
    accepted: &mut Accepted,
    results: Vec<Result<ReadyMapping, MappingError>>,
) -> Result<(), AllocError>
    ensures { OnOk result (accepted.new.mappings.items
        ≡ accepted.old.mappings.items ++ accepted_of results.items) }
{
    for result in results {
        match result {
            Ok(mapping) => accepted.mappings.push(mapping)?,
            Err(_error) => {
                accepted.skipped.mappings = accepted.skipped.mappings.saturating_add(1);
            }
        }
    }
    Ok(())
}
