//! The loops that the pass keeps.
ghost use Rattle.std.specs.Prelude.{◌≡◌, [], ◌∷◌, length, IfOk, OnOk, MatchOption};
ghost use Rattle.code_rules.specs.Costs.{plus_cost, cost_of_turns};
ghost use Rattle.code_verifier.specs.Inner.Limited.{cost_within};
ghost use Rattle.code_verifier.specs.Inner.Marks.{innermost};
ghost use Rattle.code_verifier.specs.Inner.Pass.{nest_of};
ghost use Rattle.code_verifier.specs.declared.loops.OpenLoop.{OpenLoop};

use crate::cost::Cost;
use std::alloc::{AllocError, Global};
use std::marker::Model;

/// What is known of an open loop.
#[derive(Drop)]
pub struct OpenLoop {
    /// The index of its `Each`.
    pub opener: usize,
    /// Whether it goes over a part of the item round it.
    pub is_part: bool,
    /// The cost of the region round it, up to and with its `Each`.
    pub before: Cost,
}

impl OpenLoop {
    /// The cost of the region round it after it closes, where one turn costs that much; none if a coefficient is too
    /// large.
    pub fn cost_round(&self, alloc: Global, turn: &Cost) -> Result<Option<Cost>, AllocError>
        ensures { IfOk result (λ cost. cost
            ≡ cost_within (plus_cost self.now.before (cost_of_turns self.now.is_part turn.now))) }
    {
        match turn.of_turns(alloc, self.is_part)? {
            None => Ok(None),
            Some(turns) => self.before.plus(alloc, &turns),
        }
    }
}

/// The open loops, seen with the innermost first.
#[derive(Drop)]
pub struct Loops {
    loops: Vec<OpenLoop>,
}

impl Model for Loops {
    ghost use Rattle.std.specs.Prelude.{List, reverse};
    ghost use Rattle.code_verifier.specs.declared.loops.OpenLoop.{OpenLoop};

    ghost Value = { List OpenLoop };

    ghost view = { λ l. reverse l.loops.items };
}

impl Loops {
    pub fn new(alloc: Global) -> Loops
        ensures { result ≡ [] }
    {
        Loops {
            loops: Vec::new(alloc),
        }
    }

    pub fn depth(&self) -> usize
        ensures { result ≡ length self.now }
    {
        self.loops.len()
    }

    /// The index of the `Each` of the innermost loop.
    pub fn innermost(&self) -> Option<usize>
        ensures { result ≡ innermost (nest_of self.now) }
    {
        match self.loops.last() {
            None => None,
            Some(open) => Some(open.opener),
        }
    }

    pub fn open(&mut self, inner: OpenLoop) -> Result<(), AllocError>
        ensures { OnOk result (self.new ≡ inner ∷ self.old) }
    {
        self.loops.push(inner)?;
        Ok(())
    }

    /// Takes the innermost loop.
    pub fn close(&mut self) -> Option<OpenLoop>
        ensures { MatchOption result ((self.old ≡ []) × (self.new ≡ []))
            (λ inner. self.old ≡ inner ∷ self.new) }
    {
        self.loops.pop()
    }
}
