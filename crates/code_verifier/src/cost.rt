//! Costs of instructions and of regions.
ghost use Rattle.std.specs.Prelude.{◌≡◌, IfOk};
ghost use Rattle.code_rules.specs.Bounds.{at_most};
ghost use Rattle.code_rules.specs.Costs.{no_cost, plus_cost, cost_of_turns};
ghost use Rattle.code_verifier.specs.Inner.Limited.{cost_within};

use crate::bound::Bound;
use std::alloc::{AllocError, Global};
use std::marker::Model;

/// The steps that are taken and the bytes that are written, at most.
#[derive(Debug, Drop)]
pub struct Cost {
    pub steps: Bound,
    pub bytes: Bound,
}

impl Model for Cost {
    ghost use Rattle.code_rules.specs.Costs.{Cost};

    ghost Value = { Cost };

    ghost view = { λ c. record { steps = c.steps; bytes = c.bytes } };
}

impl Cost {
    pub fn none(alloc: Global) -> Cost
        ensures { result ≡ no_cost }
    {
        Cost {
            steps: Bound::zero(alloc),
            bytes: Bound::zero(alloc),
        }
    }

    /// The sum; none if a coefficient of it is too large.
    pub fn plus(&self, alloc: Global, other: &Cost) -> Result<Option<Cost>, AllocError>
        ensures { IfOk result (λ sum. sum ≡ cost_within (plus_cost self.now other.now)) }
    {
        let steps = self.steps.plus(alloc, &other.steps)?;
        let bytes = self.bytes.plus(alloc, &other.bytes)?;
        match (steps, bytes) {
            (Some(steps), Some(bytes)) => Ok(Some(Cost { steps, bytes })),
            _ => Ok(None),
        }
    }

    /// The cost with one more step, which writes that many bytes; none if a coefficient is too large.
    pub fn with_step(&self, alloc: Global, written: &Bound) -> Result<Option<Cost>, AllocError>
        ensures { IfOk result (λ sum.
            sum ≡ cost_within
            (plus_cost self.now (record { steps = at_most 1; bytes = written.now }))) }
    {
        let one = Bound::at_most(alloc, 1)?;
        let steps = self.steps.plus(alloc, &one)?;
        let bytes = self.bytes.plus(alloc, written)?;
        match (steps, bytes) {
            (Some(steps), Some(bytes)) => Ok(Some(Cost { steps, bytes })),
            _ => Ok(None),
        }
    }

    /// What all turns of a loop cost, where one turn costs that much; none if a coefficient is too large.
    pub fn of_turns(&self, alloc: Global, is_part: bool) -> Result<Option<Cost>, AllocError>
        ensures { IfOk result (λ turns. turns ≡ cost_within (cost_of_turns is_part self.now)) }
    {
        let steps = self.steps.of_turns(alloc, is_part)?;
        let bytes = self.bytes.of_turns(alloc, is_part)?;
        match (steps, bytes) {
            (Some(steps), Some(bytes)) => Ok(Some(Cost { steps, bytes })),
            _ => Ok(None),
        }
    }
}
