// The text of a file of mappings.
ghost use Rattle.std.specs.Prelude.{◌≡◌, ◌++◌, IfOk, List, OnOk, flat_map, length, map, string_bytes, ℕ};
ghost use Rattle.std.specs.List.{AllZip};
ghost use Rattle.mapping_files.specs.Saved.{IsFileText, IsDocumentText, file_text, in_order, next_text};
ghost use Rattle.serde_json.specs.View.{view};

use json_reading::document::document_of;
use mapping_json::read::mapping_values;
use serde_json::Value;
use std::alloc::{AllocError, Global};

/// In which order a document lists its mappings.
#[derive(Clone, Copy, Debug, PartialEq, Eq)]
pub enum Listed {
    /// As a file does.
    OldestFirst,
    /// As a server does.
    NewestFirst,
}

/// The text of a file, and how many mappings it has.
#[derive(Debug, Drop)]
pub struct FileText {
    pub text: String,
    pub count: usize,
}

/// Why there is no such text.
#[derive(Clone, Copy, Debug, PartialEq, Eq)]
pub enum NoText {
    /// The document isn't JSON, or has no list of mappings.
    NoMappings,
    OutOfMemory,
}

impl From<AllocError> for NoText {
    ghost use Rattle.std.specs.Prelude.{◌≡◌};
    ghost use Rattle.mapping_files.specs.declared.file_text.NoText.TheVariants.{OutOfMemory};

    ghost from_gives = { λ _ error. error ≡ OutOfMemory };

    fn from(_error: AllocError) -> NoText {
        NoText::OutOfMemory
    }
}

/// The text of a file with the mappings of a document, the oldest first: each mapping is a line. An object without a list
/// `mappings` is taken for one mapping where a file is read; a server's answer has the list.
pub fn file_text_of(alloc: Global, document: &[u8], listed: Listed) -> Result<FileText, NoText>
    ensures { IfOk result (λ made. IsFileText listed document.now (string_bytes made.text) made.count) }
{
    let Some(document) = document_of(alloc, document)? else {
        return Err(NoText::NoMappings);
    };
    if document.get("mappings").is_none() {
        return Err(NoText::NoMappings);
    }
    match mapping_values(&document) {
        Some(values) => Ok(text_of(alloc, values, listed)?),
        None => Err(NoText::NoMappings),
    }
}

fn text_of(alloc: Global, values: &[Value], listed: Listed) -> Result<FileText, AllocError>
    ensures text { IfOk result (λ made. (texts : List (List ℕ)) × AllZip IsDocumentText (map view values.now) texts
        × (string_bytes made.text ≡ file_text (in_order listed texts))) }
    ensures count { IfOk result (λ made. made.count ≡ length values.now) }
{
    let texts = texts_of(alloc, values)?;
    let text = ordered_text(alloc, texts, listed)?;
    Ok(FileText {
        text,
        count: values.len(),
    })
}

// The text of a file with these, the oldest first.
#[tactic(auto, using(crate::proofs::Reversed::map_reverse))]
fn ordered_text(alloc: Global, texts: Vec<String>, listed: Listed) -> Result<String, AllocError>
    ensures { IfOk result (λ text.
        string_bytes text ≡ file_text (in_order listed (map string_bytes texts.items))) }
{
    match listed {
        Listed::OldestFirst => joined(alloc, texts.as_slice()),
        Listed::NewestFirst => {
            let mut texts = texts;
            texts.reverse();
            joined(alloc, texts.as_slice())
        }
    }
}

// The compact text of each value.
fn texts_of(alloc: Global, values: &[Value]) -> Result<Vec<String>, AllocError>
    ensures { IfOk result (λ texts. AllZip IsDocumentText (map view values.now) (map string_bytes texts.items)) }
{
    let mut texts = Vec::with_capacity(alloc, values.len())?;
    for value in values {
        texts.push(value.to_string(alloc)?)?;
    }
    Ok(texts)
}

fn joined(alloc: Global, texts: &[String]) -> Result<String, AllocError>
    ensures { IfOk result (λ text. string_bytes text ≡ file_text (map string_bytes texts.now)) }
{
    match texts {
        [] => String::from_str(alloc, "{\"mappings\":[]}\n"),
        [first, rest @ ..] => {
            let mut text = String::from_str(alloc, "{\"mappings\":[\n")?;
            text.push_str(first.as_str())?;
            push_rest(&mut text, rest)?;
            text.push_str("\n]}\n")?;
            Ok(text)
        }
    }
}

fn push_rest(text: &mut String, texts: &[String]) -> Result<(), AllocError>
    ensures { OnOk result (string_bytes text.new
        ≡ string_bytes text.old ++ flat_map next_text (map string_bytes texts.now)) }
{
    for next in texts {
        text.push_str(",\n")?;
        text.push_str(next.as_str())?;
    }
    Ok(())
}
