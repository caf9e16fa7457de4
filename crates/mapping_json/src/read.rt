// From a document to mappings.
ghost use Rattle.std.specs.Prelude.{◌≡◌, ◌∷◌, ◌++◌, [], Ok, map, option_map, IfOk, IfErr, OnOk};
ghost use Rattle.std.specs.List.{AllZip};
ghost use Rattle.mapping_json.specs.Documents.{AreResults, IsOuterError, SpellMappings, IsMappingsError, IsResultOf};
ghost use Rattle.mapping_json.specs.Documents.{mappings_in};
ghost use Rattle.mapping_json.specs.Inner.Lists.{AreResultsOf, IsListError, IsFirstErr};
ghost use Rattle.mapping_json.specs.Spelling.{SpellsDocument, IsDocumentError};
ghost use Rattle.mapping_json.specs.declared.error.MappingError.TheVariants.{OutOfMemory};
ghost use Rattle.serde_json.specs.View.{view};
ghost use Rattle.template_tree.specs.declared.escape.Escape.TheVariants.{Off};

use crate::error::{MappingError, MappingsError};
pub use crate::judge::response_of;
pub use crate::read_value::mapping_of;
use json_reading::document::document_of;
use json_reading::kind::Kind;
use request_match::ready_mapping::ReadyMapping;
use serde_json::Value;
use std::alloc::{AllocError, Global};
use std::slice;
use template_tree::escape::Escape;

/// The mapping that a document is. No template escapes.
pub fn read_mapping(alloc: Global, bytes: &[u8]) -> Result<ReadyMapping, MappingError>
    ensures ok { IfOk result (SpellsDocument Off bytes.now) }
    ensures error { IfErr result (IsDocumentError Off bytes.now) }
{
    read_mapping_with(alloc, bytes, Escape::Off)
}

/// The mapping that a document is, where the prints of templates are escaped so.
pub fn read_mapping_with(
    alloc: Global,
    bytes: &[u8],
    escape: Escape,
) -> Result<ReadyMapping, MappingError>
    ensures ok { IfOk result (SpellsDocument escape bytes.now) }
    ensures error { IfErr result (IsDocumentError escape bytes.now) }
{
    match document_of(alloc, bytes)? {
        Some(value) => mapping_of(alloc, &value, escape),
        None => Err(MappingError::Document(Kind::NotJson)),
    }
}

/// What is read of each mapping of a document, which is an object with a list `mappings`, or one mapping. The outer
/// error says that the document is neither, or that memory is out. The prints of templates are escaped so.
pub fn read_each_with(
    alloc: Global,
    bytes: &[u8],
    escape: Escape,
) -> Result<Vec<Result<ReadyMapping, MappingError>>, MappingError>
    ensures ok { IfOk result (λ results. AreResults escape bytes.now results.items) }
    ensures error { IfErr result (IsOuterError bytes.now) }
{
    match document_of(alloc, bytes)? {
        Some(value) => each_in(alloc, &value, escape),
        None => Err(MappingError::Document(Kind::NotJson)),
    }
}

/// The values of a document that are to be mappings: those in its list `mappings`, or itself. None where it isn't an
/// object, or its `mappings` no list.
#[tactic(auto, using(crate::proofs::Listed::no_object, crate::proofs::Listed::one_value, crate::proofs::Listed::many_listed, crate::proofs::Listed::no_list))]
pub fn mapping_values(document: &Value) -> Option<&[Value]>
    ensures { option_map (λ values. map view values.now) result ≡ mappings_in (view document.now) }
{
    if !document.is_object() {
        return None;
    }
    match document.get("mappings") {
        Some(mappings) => Some(mappings.as_array()?.as_slice()),
        None => Some(slice::from_ref(document)),
    }
}

/// All mappings of a document, or the error of the first that is none, with its index. Without an index the document
/// is no list of mappings, or memory is out. The prints of templates are escaped so.
pub fn read_mappings_with(
    alloc: Global,
    bytes: &[u8],
    escape: Escape,
) -> Result<Vec<ReadyMapping>, MappingsError>
    ensures ok { IfOk result (λ mappings. SpellMappings escape bytes.now mappings.items) }
    ensures error { IfErr result (IsMappingsError escape bytes.now) }
{
    all_of(alloc, read_each_with(alloc, bytes, escape)?)
}

fn each_in(
    alloc: Global,
    document: &Value,
    escape: Escape,
) -> Result<Vec<Result<ReadyMapping, MappingError>>, MappingError>
    ensures ok { IfOk result (λ results. AreResultsOf escape (view document.now) results.items) }
    ensures error { IfErr result (IsListError (view document.now)) }
{
    match mapping_values(document) {
        Some(values) => Ok(each_result(alloc, values, escape)?),
        None => Err(MappingError::Document(Kind::Misshapen)),
    }
}

fn each_result(
    alloc: Global,
    values: &[Value],
    escape: Escape,
) -> Result<Vec<Result<ReadyMapping, MappingError>>, AllocError>
    ensures { IfOk result (λ results. AllZip (IsResultOf escape) (map view values.now) results.items) }
{
    let mut results = Vec::with_capacity(alloc, values.len())?;
    for value in values {
        results.push(result_of(alloc, value, escape)?)?;
    }
    Ok(results)
}

/// What is read of a value. Where memory is out, it is for the whole document.
fn result_of(
    alloc: Global,
    value: &Value,
    escape: Escape,
) -> Result<Result<ReadyMapping, MappingError>, AllocError>
    ensures { IfOk result (IsResultOf escape (view value.now)) }
{
    match mapping_of(alloc, value, escape) {
        Ok(mapping) => Ok(Ok(mapping)),
        Err(MappingError::OutOfMemory) => Err(AllocError),
        Err(error) => Ok(Err(error)),
    }
}

/// The mappings, or the first error with its index.
fn all_of(
    alloc: Global,
    results: Vec<Result<ReadyMapping, MappingError>>,
) -> Result<Vec<ReadyMapping>, MappingsError>
    ensures ok { IfOk result (λ mappings. results.items ≡ map Ok mappings.items) }
    ensures error { IfErr result (IsFirstErr results.items) }
{
    let mut mappings = Vec::new(alloc);
    for result in results {
        match result {
            Ok(mapping) => push(&mut mappings, mapping)?,
            Err(error) => {
                return Err(MappingsError {
                    index: Some(mappings.len()),
                    error,
                });
            }
        }
    }
    Ok(mappings)
}

fn push(mappings: &mut Vec<ReadyMapping>, mapping: ReadyMapping) -> Result<(), MappingError>
    ensures ok { OnOk result (mappings.new.items ≡ mappings.old.items ++ mapping ∷ []) }
    ensures error { IfErr result (λ error. error ≡ OutOfMemory) }
{
    match mappings.push(mapping) {
        Ok(()) => Ok(()),
        Err(_error) => Err(MappingError::OutOfMemory),
    }
}
