//! Where a run goes on after an instruction.
ghost use Rattle.std.specs.Prelude.{◌≡◌};
ghost use Rattle.template_code.specs.Instructions.{target_of, goes_on, requires_empty_stack, is_misplaced};

/// Where a run goes on after an instruction.
#[derive(Clone, Copy, Debug, PartialEq, Eq)]
pub enum Flow {
    /// At the next instruction.
    Straight,
    /// At the instruction with that index.
    Jump(usize),
    /// At the next instruction, or at the one with that index.
    Branch(usize),
    /// At the next instruction, in a loop, or at the one with that index, if there is no item.
    Open(usize),
    /// At the instruction with that index, with the loop's next item, or at the next one, out of the loop.
    Close(usize),
    /// Nowhere.
    End,
}

impl Flow {
    /// The index of the later instruction to which the run may jump. The way back to the start of a loop is no jump.
    pub fn target(self) -> Option<usize>
        ensures { result ≡ target_of self }
    {
        match self {
            Flow::Jump(target) | Flow::Branch(target) | Flow::Open(target) => Some(target),
            Flow::Straight | Flow::Close(_) | Flow::End => None,
        }
    }

    /// Whether the run may go on at the next instruction.
    pub fn goes_on(self) -> bool
        ensures { result ≡ goes_on self }
    {
        !matches!(self, Flow::Jump(_) | Flow::End)
    }

    /// Whether the instruction must leave no slot below those that it pops.
    pub fn requires_empty_stack(self) -> bool
        ensures { result ≡ requires_empty_stack self }
    {
        !matches!(self, Flow::Straight)
    }

    /// Whether it is the end of a run before the last instruction, or no end at the last one.
    pub fn is_misplaced(self, is_last: bool) -> bool
        ensures { result ≡ is_misplaced self is_last }
    {
        matches!(self, Flow::End) != is_last
    }
}
