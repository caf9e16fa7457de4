//! Why code may not run.

use code_rules::rule::Rule;
use template_code::code::Code;

/// Why there is no `Verified`. The code that was given comes back.
#[derive(Debug, Drop)]
pub enum VerifyError {
    /// The code breaks this rule at the instruction with this index: the first index at which it breaks a
    /// rule, and the first rule that it breaks there.
    CodeRefused {
        code: Code,
        index: usize,
        rule: Rule,
    },
    OutOfMemory {
        code: Code,
    },
}
