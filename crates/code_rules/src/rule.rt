//! The rules that code is judged by.

/// A rule that well-formed code keeps. Where one instruction breaks several, the first of them is reported.
#[derive(Clone, Copy, Debug, PartialEq, Eq)]
pub enum Rule {
    /// There is an instruction, and there are at most `MAX_INSTRUCTIONS`.
    V1,
    /// A text or a path that an instruction names is in the code's table.
    V2,
    /// A jump goes to a later instruction of the code.
    V3,
    /// A jump goes to an instruction in the same loops: the one that it goes to breaks this.
    V4,
    /// As many slots as are popped are on the stack.
    V5,
    /// Each slot that is popped has a kind that the instruction accepts.
    V6,
    /// There are never more than `MAX_SLOTS` slots.
    V7,
    /// The stack is empty where a jump goes to, and after what a jump, a branch, `Each`, `Next` or `Halt` pops.
    V8,
    /// There are never more than `MAX_LOOPS` open loops.
    V9,
    /// `Next` goes back to the instruction after the innermost loop's `Each`, and `Halt` is in no loop.
    V10,
    /// A loop that an instruction reads is open.
    V11,
    /// The last instruction is `Halt`, and no other one is.
    V12,
    /// No coefficient of a bound or of a budget is over `MAX_COEFFICIENT`.
    V13,
}
