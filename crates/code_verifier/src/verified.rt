//! Code that may run.
ghost use Rattle.std.specs.Prelude.{◌≡◌};
ghost use Rattle.code_rules.specs.Polynomial.{as_printed};
ghost use Rattle.code_rules.specs.Regions.{budget};
ghost use Rattle.code_rules.specs.Verdict.{IsWellFormed, IsWithinLimits};
ghost use Rattle.template_code.specs.Code.{HasTypedNumbers};
ghost use Rattle.code_verifier.specs.Verdict.{IsVerified};

use crate::budget::Budget;
use std::marker::Model;
use template_code::code::Code;

/// Code that is well formed and within its limits, with its budget. Only `verify` makes one.
#[derive(Debug, Drop)]
pub struct Verified {
    code: Code,
    budget: Budget,
}

impl Model for Verified {
    ghost use Rattle.template_code.specs.Code.{StackCode};
    ghost use Rattle.code_verifier.specs.Verdict.{IsVerified};

    ghost Value = { StackCode };

    ghost view = { λ v. v.code };

    ghost invariant = { λ v. IsVerified v.code v.budget };
}

impl Verified {
    pub(crate) fn new(code: Code, budget: Budget) -> Verified
        requires { IsVerified code budget }
        ensures { result ≡ code }
    {
        Verified { code, budget }
    }

    /// The code that was given.
    pub fn code(&self) -> &Code
        ensures code { result.now ≡ self.now }
        ensures well_formed { IsWellFormed self.now }
        ensures within_limits { IsWithinLimits self.now }
        ensures typed { HasTypedNumbers self.now }
    {
        &self.code
    }

    pub fn budget(&self) -> &Budget
        ensures steps { result.now.steps ≡ as_printed (budget self.now).steps }
        ensures bytes { result.now.bytes ≡ as_printed (budget self.now).bytes }
    {
        &self.budget
    }
}
