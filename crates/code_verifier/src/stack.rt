//! The slots that the pass keeps.
ghost use Rattle.std.specs.Prelude.{◌≡◌, List, [], ◌∷◌, length, drop, OnOk, MatchOption};
ghost use Rattle.code_verifier.specs.Inner.Pass.{takes_part};
ghost use Rattle.code_verifier.specs.declared.stack.Slot.{Slot};

use crate::bound::Bound;
use helper_set::kind::Kind;
use std::alloc::{AllocError, Global};
use std::marker::Model;

/// What is known of a slot: its kind, and the length of the text that it prints as, at most.
#[derive(Drop)]
pub struct Slot {
    pub kind: Kind,
    pub bound: Bound,
}

/// The slots, seen with the top first.
#[derive(Drop)]
pub struct Stack {
    slots: Vec<Slot>,
}

impl Model for Stack {
    ghost use Rattle.std.specs.Prelude.{List, reverse};
    ghost use Rattle.code_verifier.specs.declared.stack.Slot.{Slot};

    ghost Value = { List Slot };

    ghost view = { λ s. reverse s.slots.items };
}

impl Stack {
    pub fn new(alloc: Global) -> Stack
        ensures { result ≡ [] }
    {
        Stack {
            slots: Vec::new(alloc),
        }
    }

    pub fn depth(&self) -> usize
        ensures { result ≡ length self.now }
    {
        self.slots.len()
    }

    /// The slot at that depth below the top.
    pub fn slot(&self, depth: usize) -> Option<&Slot>
        ensures { MatchOption result (drop depth self.now ≡ [])
            (λ slot. (below : List Slot) × (drop depth self.now ≡ slot.now ∷ below)) }
    {
        let count = self.depth();
        if depth < count {
            Some(&self.slots[count - 1 - depth])
        } else {
            None
        }
    }

    /// The slot at the top.
    pub fn top(&self) -> Option<&Slot>
        ensures { MatchOption result (self.now ≡ [])
            (λ slot. (below : List Slot) × (self.now ≡ slot.now ∷ below)) }
    {
        self.slots.last()
    }

    /// Adds a slot at the top.
    pub fn push(&mut self, kind: Kind, bound: Bound) -> Result<(), AllocError>
        ensures { OnOk result (self.new ≡ record { kind = kind; bound = bound } ∷ self.old) }
    {
        self.slots.push(Slot { kind, bound })?;
        Ok(())
    }

    /// Whether a loop over the slot at the top goes over a part of an item.
    pub fn takes_part(&self) -> bool
        ensures { result ≡ takes_part self.now }
    {
        matches!(self.top(), Some(slot) if slot.bound.depends_on_item())
    }

    /// Takes that many slots from the top, or all if there are fewer.
    pub fn pop_many(&mut self, count: usize)
        ensures { self.new ≡ drop count self.old }
    {
        let left = self.depth().saturating_sub(count);
        self.slots.truncate(left);
    }

    /// Takes every slot.
    pub fn clear(&mut self)
        ensures { self.new ≡ [] }
    {
        self.slots.clear();
    }
}
