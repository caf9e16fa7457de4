//! Decides whether code may run.
ghost use Rattle.std.specs.Prelude.{◌≡◌, IfOk, IfErr, OnOk};
ghost use Rattle.code_rules.specs.Verdict.{IsWellFormed, IsWithinLimits};
ghost use Rattle.code_verifier.specs.Verdict.{IsVerifyErrorOf};
ghost use Rattle.code_verifier.specs.declared.error.VerifyError.TheVariants.{OutOfMemory};

use crate::error::VerifyError;
use crate::pass::{Finding, pass};
use crate::verified::Verified;
use std::alloc::Global;
use template_code::code::Code;

/// Judges code in one pass: accepts it if it is well formed and no coefficient of a bound or of a budget is over
/// `template_code::limits::MAX_COEFFICIENT`, and reports its first violation otherwise.
pub fn verify(alloc: Global, code: Code) -> Result<Verified, VerifyError>
    ensures same { IfOk result (λ verified. verified ≡ code) }
    ensures accepted { OnOk result (IsWellFormed code × IsWithinLimits code) }
    ensures reported { IfErr result (λ error. IsVerifyErrorOf code error) }
    ensures only { IsWellFormed code → IsWithinLimits code →
        IfErr result (λ error. error ≡ OutOfMemory code) }
{
    match pass(alloc, &code) {
        Ok(Finding::Accepted { budget }) => Ok(Verified::new(code, budget)),
        Ok(Finding::Violation { index, rule }) => Err(VerifyError::CodeRefused {
            code,
            index,
            rule,
        }),
        Err(_error) => Err(VerifyError::OutOfMemory { code }),
    }
}
