// The headers of a request in one block of memory.
ghost use Rattle.std.specs.Prelude.{◌≡◌, ◌++◌, ◌↔◌, length, slice_get, All, IfSome, IfOk, IsTrue, OnOk};
ghost use Rattle.std.specs.Option.{option_map};
ghost use Rattle.http_header.specs.FieldName.{IsHeaderName};
ghost use Rattle.http_header.specs.HeaderMap.{pairs};
ghost use Rattle.mock_request.specs.Request.{headers_of};
ghost use Rattle.mock_request.specs.Inner.Parts.{fields_of};

use crate::block::Block;
use http_header::{HeaderMap, HeaderName, HeaderValue};
use std::alloc::{AllocError, Global};
use std::marker::Model;

/// The headers of a request, in their order: a block with the name and the value of each.
#[derive(Debug, Drop)]
pub(crate) struct Fields {
    block: Block,
}

impl Model for Fields {
    ghost use Rattle.std.specs.Prelude.{List};
    ghost use Rattle.mock_request.specs.Request.{Header};
    ghost use Rattle.mock_request.specs.Inner.Parts.{headers_in, AreFields};

    ghost Value = { List Header };

    ghost view = { λ f. headers_in f.block };

    ghost invariant = { λ f. AreFields f.block };
}

impl Fields {
    /// Copies headers.
    pub(crate) fn of_list(
        alloc: Global,
        headers: &[(HeaderName, HeaderValue)],
    ) -> Result<Fields, AllocError>
        ensures { IfOk result (λ fields. fields ≡ headers_of headers.now) }
    {
        let mut block = Block::with_room(
            alloc,
            headers.len().saturating_mul(2),
            list_len(headers),
        )?;
        push_list(&mut block, headers)?;
        Ok(Fields { block })
    }

    /// Copies the headers in a map.
    pub(crate) fn of_map(alloc: Global, headers: &HeaderMap) -> Result<Fields, AllocError>
        ensures { IfOk result (λ fields. fields ≡ headers_of (pairs headers.now)) }
    {
        let mut block = Block::with_room(alloc, headers.len().saturating_mul(2), map_len(headers))?;
        push_map(&mut block, headers)?;
        Ok(Fields { block })
    }

    /// Whether these are the headers in the map.
    pub(crate) fn are_of_map(&self, headers: &HeaderMap) -> bool
        ensures { IsTrue result → self.now ≡ headers_of (pairs headers.now) }
    {
        is_of_map(&self.block, headers)
    }

    /// How many headers there are.
    pub(crate) fn len(&self) -> usize
        ensures { result ≡ length self.now }
    {
        self.block.len() / 2
    }

    /// A law: the names are in lower case.
    pub(crate) fn law_names(&self)
        ensures { All (λ header. IsHeaderName header.name) self.now }
    {
        let _fields = &self.block;
    }

    /// The name and the value of the header at that index.
    #[tactic(auto, using(crate::proofs::PartsLemmas::field_count, crate::proofs::PartsLemmas::header_at))]
    pub(crate) fn get(&self, index: usize) -> Option<(&str, &[u8])>
        ensures value { option_map (λ header. record { name = header.0.now; value = header.1.now }) result
            ≡ slice_get self.now index }
        ensures lower_case { IfSome result (λ header. IsHeaderName header.0.now) }
    {
        let count = self.block.len() / 2;
        if index >= count {
            return None;
        }
        let name = 2 * index;
        Some((self.block.text(name), self.block.part(name + 1)))
    }

    /// Whether the others are equal, in the same order.
    #[tactic(auto, using(crate::proofs::PartsLemmas::same_fields))]
    pub(crate) fn same(&self, other: &Fields) -> bool
        ensures { IsTrue result ↔ (self.now ≡ other.now) }
    {
        self.block.same(&other.block)
    }
}

// Whether the byte strings are the names and the values in the map.
fn is_of_map(block: &Block, headers: &HeaderMap) -> bool
    ensures { IsTrue result → block.now ≡ fields_of (headers_of (pairs headers.now)) }
{
    let mut at = 0;
    for (name, value) in headers.iter() {
        if block.len() - at < 2
            || !block.is_at(at, name.as_bytes())
            || !block.is_at(at + 1, value.as_bytes())
        {
            return false;
        }
        at += 2;
    }
    at == block.len()
}

// Appends the name and the value of each header of the map.
fn push_map(parts: &mut Block, headers: &HeaderMap) -> Result<(), AllocError>
    ensures parts { OnOk result (parts.new ≡ parts.old ++ fields_of (headers_of (pairs headers.now))) }
    ensures names { OnOk result (All (λ header. IsHeaderName header.name) (headers_of (pairs headers.now))) }
{
    for (name, value) in headers.iter() {
        parts.push(name.as_bytes())?;
        parts.push(value.as_bytes())?;
    }
    Ok(())
}

// As `list_len`.
fn map_len(headers: &HeaderMap) -> usize {
    let mut total: usize = 0;
    for (name, value) in headers.iter() {
        total = total
            .saturating_add(name.as_bytes().len())
            .saturating_add(value.len());
    }
    total
}

// Appends the name and the value of each header.
fn push_list(parts: &mut Block, headers: &[(HeaderName, HeaderValue)]) -> Result<(), AllocError>
    ensures parts { OnOk result (parts.new ≡ parts.old ++ fields_of (headers_of headers.now)) }
    ensures names { OnOk result (All (λ header. IsHeaderName header.name) (headers_of headers.now)) }
{
    for (name, value) in headers {
        parts.push(name.as_bytes())?;
        parts.push(value.as_bytes())?;
    }
    Ok(())
}

// The bytes of all names and values, as far as they can be counted: it is the room that is taken for them.
fn list_len(headers: &[(HeaderName, HeaderValue)]) -> usize {
    let mut total: usize = 0;
    for (name, value) in headers {
        total = total
            .saturating_add(name.as_bytes().len())
            .saturating_add(value.len());
    }
    total
}
