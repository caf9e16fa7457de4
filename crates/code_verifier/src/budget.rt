//! The budget of code, as it is printed.
ghost use Rattle.std.specs.Prelude.{◌≡◌, ◌⊎◌, ◌≤◌, ◌^◌, ◌↔◌, IfOk, IfSome, IsNone};
ghost use Rattle.code_rules.specs.Polynomial.{value, as_printed};

use crate::cost::Cost;
use crate::polynomial::Polynomial;
use std::alloc::{AllocError, Global};
use std::marker::Model;

/// The steps that a run takes and the bytes that it writes, at most: two polynomials in the size of the request's
/// data, as lists of coefficients, the constant first. No list but `[0]` ends in a zero, by
/// `code_rules::laws::law_budget_ends_in_no_zero`.
#[derive(Debug, Drop)]
pub struct Budget {
    steps: Polynomial,
    bytes: Polynomial,
}

impl Model for Budget {
    ghost use Rattle.code_rules.specs.Regions.{Budget};

    ghost Value = { Budget };

    ghost view = { λ b. record { steps = b.steps; bytes = b.bytes } };
}

impl Budget {
    pub fn steps(&self) -> &[u64]
        ensures { result.now ≡ self.now.steps }
    {
        self.steps.coefficients()
    }

    pub fn bytes(&self) -> &[u64]
        ensures { result.now ≡ self.now.bytes }
    {
        self.bytes.coefficients()
    }

    /// The steps and the bytes at a size of the data, or none where one of them exceeds 128 bits.
    pub fn at(&self, size: u64) -> Option<(u128, u128)>
        ensures steps { IfSome result (λ at. at.0 ≡ value self.now.steps size) }
        ensures bytes { IfSome result (λ at. at.1 ≡ value self.now.bytes size) }
        ensures none { IsNone result
            ↔ ((2 ^ 128 ≤ value self.now.steps size) ⊎ (2 ^ 128 ≤ value self.now.bytes size)) }
    {
        let steps = self.steps.value_at(size)?;
        let bytes = self.bytes.value_at(size)?;
        Some((steps, bytes))
    }

    // The cost of all of the code, as it is printed. Outside of loops nothing depends on an item.
    pub(crate) fn of_whole(whole: Cost) -> Result<Budget, AllocError>
        ensures { IfOk result (λ budget. budget ≡
            record { steps = as_printed whole.steps.alone; bytes = as_printed whole.bytes.alone }) }
    {
        Ok(Budget {
            steps: whole.steps.into_alone().into_printed()?,
            bytes: whole.bytes.into_alone().into_printed()?,
        })
    }
}
