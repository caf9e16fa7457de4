// Byte strings in one block of memory.
ghost use Rattle.std.specs.Prelude.{◌≡◌, [], ◌∷◌, ◌++◌, ◌<◌, ◌↔◌, length, slice_index_or, IfOk, IsTrue, OnOk, OnErr};
ghost use Rattle.std.specs.Str.{IsUtf8};
ghost use Rattle.mock_request.specs.Inner.Block.{start_at};

use std::alloc::{AllocError, Global};
use std::marker::Model;
use std::str;

/// A list of byte strings: one after the other in a block of `u32::MAX` bytes at most, with their ends beside it. So
/// it takes two allocations, however long the list is.
#[derive(Debug, Drop)]
pub(crate) struct Block {
    bytes: Vec<u8>,
    ends: Vec<u32>,
}

impl Model for Block {
    ghost use Rattle.std.specs.Prelude.{ℕ, List, length};
    ghost use Rattle.mock_request.specs.Inner.Block.{parts_from, AreEnds};

    ghost Value = { List (List ℕ) };

    ghost view = { λ b. parts_from 0 b.ends.items b.bytes.items };

    ghost invariant = { λ b. AreEnds 0 b.ends.items (length b.bytes.items) };
}

impl Block {
    /// No byte string, with room for `count` of them of `total` bytes together.
    pub(crate) fn with_room(alloc: Global, count: usize, total: usize) -> Result<Block, AllocError>
        ensures { IfOk result (λ block. block ≡ []) }
    {
        Ok(Block {
            bytes: Vec::with_capacity(alloc, total)?,
            ends: Vec::with_capacity(alloc, count)?,
        })
    }

    /// Appends a byte string. A block over `u32::MAX` bytes is refused like one that there is no memory for.
    pub(crate) fn push(&mut self, part: &[u8]) -> Result<(), AllocError>
        ensures ok { OnOk result (self.new ≡ self.old ++ part.now ∷ []) }
        ensures err { OnErr result (self.new ≡ self.old) }
    {
        let Ok(end) = u32::try_from(self.bytes.len() + part.len()) else {
            return Err(AllocError);
        };
        self.bytes.reserve(part.len())?;
        self.ends.push(end)?;
        self.bytes.extend_from_slice(part)
    }

    /// How many byte strings there are.
    pub(crate) fn len(&self) -> usize
        ensures { result ≡ length self.now }
    {
        self.ends.len()
    }

    /// The byte string at that index.
    #[tactic(auto, using(crate::proofs::BlockLemmas::bounds, crate::proofs::BlockLemmas::length_parts))]
    pub(crate) fn part(&self, index: usize) -> &[u8]
        requires { index < length self.now }
        ensures { result.now ≡ slice_index_or self.now index [] }
    {
        let start = start(self.ends.as_slice(), index);
        let end = self.ends[index] as usize;
        &self.bytes[start..end]
    }

    /// The text at that index, with no second look at its bytes.
    pub(crate) fn text(&self, index: usize) -> &str
        requires within { index < length self.now }
        requires text { IsUtf8 (slice_index_or self.now index []) }
        ensures { result.now ≡ slice_index_or self.now index [] }
    {
        unsafe { str::from_utf8_unchecked(self.part(index)) }
    }

    /// Whether the byte string at that index is this one.
    pub(crate) fn is_at(&self, index: usize, bytes: &[u8]) -> bool
        requires { index < length self.now }
        ensures { IsTrue result ↔ (slice_index_or self.now index [] ≡ bytes.now) }
    {
        same_bytes(self.part(index), bytes)
    }

    /// Whether it has the same byte strings.
    pub(crate) fn same(&self, other: &Block) -> bool
        ensures { IsTrue result ↔ (self.now ≡ other.now) }
    {
        if self.len() != other.len() {
            return false;
        }
        for i in 0..self.len() {
            if !self.is_at(i, other.part(i)) {
                return false;
            }
        }
        true
    }
}

fn same_bytes(a: &[u8], b: &[u8]) -> bool
    ensures { IsTrue result ↔ (a.now ≡ b.now) }
{
    a == b
}

// Where the byte string at that index begins.
fn start(ends: &[u32], index: usize) -> usize
    requires { index < length ends.now }
    ensures { result ≡ start_at 0 ends.now index }
{
    if index == 0 {
        return 0;
    }
    ends[index - 1] as usize
}
