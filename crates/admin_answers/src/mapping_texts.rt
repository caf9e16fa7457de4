// Mappings, each of which is written by itself.
ghost use Rattle.std.specs.Prelude.{◌≡◌, ◌<◌, Some, length, map, IfOk, slice_get, string_bytes};
ghost use Rattle.admin_answers.specs.Inner.Mapped.{text_of_mapping};

use admin_json::mappings::mapping_text;
use request_journal::mapping::Mapping;
use std::alloc::{AllocError, Global};
use std::marker::Model;

/// Mappings, which contracts see as their compact texts. Only references are kept.
#[derive(Drop)]
pub(crate) struct MappingTexts {
    mappings: Vec<Mapping>,
}

impl Model for MappingTexts {
    ghost use Rattle.std.specs.Prelude.{ℕ, List, map};
    ghost use Rattle.admin_answers.specs.Inner.Mapped.{text_of_mapping};

    ghost Value = { List (List ℕ) };

    ghost view = { λ t. map text_of_mapping t.mappings.items };
}

impl MappingTexts {
    pub fn new(alloc: Global, mappings: &[Mapping]) -> Result<MappingTexts, AllocError>
        ensures { IfOk result (λ texts. texts ≡ map text_of_mapping mappings.now) }
    {
        Ok(MappingTexts {
            mappings: shared(alloc, mappings)?,
        })
    }

    pub fn len(&self) -> usize
        ensures { result ≡ length self.now }
    {
        self.mappings.len()
    }

    /// The compact text of the mapping.
    pub fn text(&self, alloc: Global, index: usize) -> Result<String, AllocError>
        requires { index < length self.now }
        ensures { IfOk result (λ text. slice_get self.now index ≡ Some (string_bytes text)) }
    {
        mapping_text(alloc, &self.mappings[index])
    }
}

fn shared(alloc: Global, mappings: &[Mapping]) -> Result<Vec<Mapping>, AllocError>
    ensures { IfOk result (λ shared. shared.items ≡ mappings.now) }
{
    let mut shared = Vec::with_capacity(alloc, mappings.len())?;
    for mapping in mappings {
        shared.push(mapping.clone()?)?;
    }
    Ok(shared)
}
