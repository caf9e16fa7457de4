//! Code that is being written.
ghost use Rattle.std.specs.Prelude.{◌≡◌, ◌≤◌, OnOk};
ghost use Rattle.template_code.specs.declared.limits.TheConstants.{MAX_INSTRUCTIONS};

use data_tree::step::Path;
use plain_text::text::Text;
use std::alloc::{AllocError, Global};
use std::marker::Model;
use template_code::code::Code;
use template_code::code_text::CodeText;
use template_code::instr::Instr;

/// The instructions and the entries of the tables so far.
#[derive(Drop)]
pub struct Draft {
    instrs: Vec<Instr>,
    texts: Vec<CodeText>,
    paths: Vec<Path>,
}

impl Model for Draft {
    ghost use Rattle.template_code.specs.Code.{StackCode};

    ghost Value = { StackCode };

    ghost view = { λ d. record { instrs = d.instrs.items; texts = d.texts.items; paths = d.paths.items } };
}

impl Draft {
    ghost use Rattle.std.specs.Prelude.{[], ◌∷◌};
    ghost use Rattle.template_compile.specs.Compiled.{no_code, instructions, emit_code, text_code, root_code};
    ghost use Rattle.template_compile.specs.Compiled.{item_code};
    ghost use Rattle.template_compile.specs.Compiled.{branch_over, jump_over, each_over, again};
    ghost use Rattle.template_compile.specs.Inner.Drafts.{extended_by};

    /// No code.
    pub fn new(alloc: Global) -> Draft
        ensures { result ≡ no_code }
    {
        Draft {
            instrs: Vec::new(alloc),
            texts: Vec::new(alloc),
            paths: Vec::new(alloc),
        }
    }

    /// Writes a text, which becomes a new entry.
    pub fn emit(&mut self, text: Text) -> Result<(), AllocError>
        ensures { OnOk result (self.new ≡ extended_by self.old (emit_code text)) }
    {
        self.instrs.push(Instr::Emit(self.texts.len()))?;
        self.texts.push(CodeText::new(text.into_string()))?;
        Ok(())
    }

    /// Pushes what a path finds in the root. The path becomes a new entry.
    pub fn root(&mut self, path: Path) -> Result<(), AllocError>
        ensures { OnOk result (self.new ≡ extended_by self.old (root_code path)) }
    {
        self.instrs.push(Instr::Root(self.paths.len()))?;
        self.paths.push(path)?;
        Ok(())
    }

    /// Pushes what a path finds in the item of the `up`-th enclosing loop, 0 being the innermost. The path becomes a
    /// new entry.
    pub fn item(&mut self, up: u32, path: Path) -> Result<(), AllocError>
        ensures { OnOk result (self.new ≡ extended_by self.old (item_code up path)) }
    {
        self.instrs
            .push(Instr::Item(up as usize, self.paths.len()))?;
        self.paths.push(path)?;
        Ok(())
    }

    /// Pushes a text, which becomes a new entry.
    pub fn text(&mut self, text: Text) -> Result<(), AllocError>
        ensures { OnOk result (self.new ≡ extended_by self.old (text_code text)) }
    {
        self.instrs.push(Instr::Text(self.texts.len()))?;
        self.texts.push(CodeText::new(text.into_string()))?;
        Ok(())
    }

    /// The same of a text that is looked up as a JSON path, which is read here, once for all runs.
    pub fn path_text(&mut self, alloc: Global, text: Text) -> Result<(), AllocError>
        ensures { OnOk result (self.new ≡ extended_by self.old (text_code text)) }
    {
        self.instrs.push(Instr::Text(self.texts.len()))?;
        self.texts.push(CodeText::read(alloc, text.into_string())?)?;
        Ok(())
    }

    /// An instruction that needs no new entry.
    pub fn push(&mut self, instr: Instr) -> Result<(), AllocError>
        ensures { OnOk result (self.new ≡ extended_by self.old (instructions (instr ∷ []))) }
    {
        self.instrs.push(instr)?;
        Ok(())
    }

    /// Passes the next `count` instructions where the truth on the stack is false.
    pub fn branch_over(&mut self, count: usize) -> Result<(), AllocError>
        requires { count ≤ MAX_INSTRUCTIONS }
        ensures { OnOk result (self.new ≡ extended_by self.old (branch_over count)) }
    {
        self.instrs
            .push(Instr::Branch(self.instrs.len() + 1 + count))?;
        Ok(())
    }

    /// Passes the next `count` instructions.
    pub fn jump_over(&mut self, count: usize) -> Result<(), AllocError>
        requires { count ≤ MAX_INSTRUCTIONS }
        ensures { OnOk result (self.new ≡ extended_by self.old (jump_over count)) }
    {
        self.instrs
            .push(Instr::Jump(self.instrs.len() + 1 + count))?;
        Ok(())
    }

    /// Opens a loop over the value on the stack, or passes the next `count` instructions where it has no item.
    pub fn each_over(&mut self, count: usize) -> Result<(), AllocError>
        requires { count ≤ MAX_INSTRUCTIONS }
        ensures { OnOk result (self.new ≡ extended_by self.old (each_over count)) }
    {
        self.instrs
            .push(Instr::Each(self.instrs.len() + 1 + count))?;
        Ok(())
    }

    /// Goes back to the loop's body, the last `count` instructions, where there is a next item.
    pub fn again(&mut self, count: usize) -> Result<(), AllocError>
        ensures { OnOk result (self.new ≡ extended_by self.old (again count)) }
    {
        let start = self.instrs.len().saturating_sub(count);
        self.instrs.push(Instr::Next(start))?;
        Ok(())
    }

    /// The code.
    pub fn into_code(self) -> Code
        ensures { result ≡ self }
    {
        Code::new(self.instrs, self.texts, self.paths)
    }
}
