//! The law: a function that does nothing, whose contract is the law.
ghost use Rattle.safe_code.specs.Safe.{EachIsSafe};

/// Well-formed code, also if no template has it, comes to its end over every root, meets no trap, and keeps to its
/// budget.
pub fn law_well_formed_code_is_safe()
    ensures { EachIsSafe }
{}
