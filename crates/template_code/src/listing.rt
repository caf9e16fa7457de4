//! Code as text.
ghost use Rattle.std.specs.Prelude.{◌≡◌, ◌++◌, IfOk, OnOk, string_bytes};
ghost use Rattle.template_code.specs.Listing.{line, lines_from};

use crate::code::Code;
use crate::instr::Instr;
use std::alloc::{AllocError, Global};

/// A line for each instruction: its index, a space, its name and its operand.
pub fn listing(alloc: Global, code: &Code) -> Result<String, AllocError>
    ensures { IfOk result (λ text. string_bytes text ≡ lines_from 0 code.now.instrs) }
{
    let mut text = String::new(alloc);
    for (index, instr) in code.instrs().iter().enumerate() {
        add_line(&mut text, index, *instr)?;
    }
    Ok(text)
}

fn add_line(text: &mut String, index: usize, instr: Instr) -> Result<(), AllocError>
    ensures { OnOk result (string_bytes text.new ≡ string_bytes text.old ++ line index instr) }
{
    writeln!(text, "{index} {instr}")?;
    Ok(())
}
