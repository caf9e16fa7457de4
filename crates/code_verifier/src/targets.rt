//! The targets of jumps.
ghost use Rattle.std.specs.Prelude.{◌≡◌, set, replicate, IfOk};
ghost use Rattle.code_verifier.specs.Inner.Marks.{same_loop, with_jump, agrees, is_marked, mark_at};
ghost use Rattle.code_verifier.specs.declared.targets.Mark.TheVariants.{Unmarked};

use std::alloc::{AllocError, Global};
use std::marker::Model;

/// What is known of the jumps to an instruction. A loop is known by the index of its `Each`; none is outside of all
/// loops.
#[derive(Clone, Copy, Debug, PartialEq, Eq)]
pub enum Mark {
    /// There is none.
    Unmarked,
    /// There is one, and all are directly in that loop.
    From(Option<usize>),
    /// They are in different loops.
    Mixed,
}

impl Mark {
    /// The mark with one more jump.
    pub fn with_jump(self, from: Option<usize>) -> Mark
        ensures { result ≡ with_jump from self }
    {
        match self {
            Mark::Unmarked => Mark::From(from),
            Mark::From(earlier) if same_loop(from, earlier) => self,
            Mark::From(_) | Mark::Mixed => Mark::Mixed,
        }
    }

    /// Whether all jumps are in that loop.
    pub fn agrees(self, inner: Option<usize>) -> bool
        ensures { result ≡ agrees inner self }
    {
        match self {
            Mark::Unmarked => true,
            Mark::From(earlier) => same_loop(inner, earlier),
            Mark::Mixed => false,
        }
    }

    /// Whether there is a jump.
    pub fn is_marked(self) -> bool
        ensures { result ≡ is_marked self }
    {
        !matches!(self, Mark::Unmarked)
    }
}

fn same_loop(left: Option<usize>, right: Option<usize>) -> bool
    ensures { result ≡ same_loop left right }
{
    match (left, right) {
        (None, None) => true,
        (Some(left), Some(right)) => left == right,
        _ => false,
    }
}

/// For each index what is known of the jumps to it that were seen.
#[derive(Drop)]
pub struct Targets {
    marks: Vec<Mark>,
}

impl Model for Targets {
    ghost use Rattle.std.specs.Prelude.{List};
    ghost use Rattle.code_verifier.specs.declared.targets.Mark.{Mark};

    ghost Value = { List Mark };

    ghost view = { λ t. t.marks.items };
}

impl Targets {
    /// Marks for `count` indices, none of which is a target.
    pub fn new(alloc: Global, count: usize) -> Result<Targets, AllocError>
        ensures { IfOk result (λ targets. targets ≡ replicate count Unmarked) }
    {
        Ok(Targets {
            marks: vec![in alloc; Mark::Unmarked; count]?,
        })
    }

    /// Marks an index as the target of a jump, if there is a mark for it.
    pub fn add_jump(&mut self, target: usize, from: Option<usize>)
        ensures { self.new ≡ set self.old target (with_jump from (mark_at self.old target)) }
    {
        if target < self.marks.len() {
            self.marks[target] = self.marks[target].with_jump(from);
        }
    }

    pub fn mark_at(&self, index: usize) -> Mark
        ensures { result ≡ mark_at self.now index }
    {
        self.marks.get(index).copied().unwrap_or(Mark::Unmarked)
    }
}
