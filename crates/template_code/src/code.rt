//! Code as plain data.
ghost use Rattle.std.specs.Prelude.{◌≡◌};
ghost use Rattle.template_code.specs.Instructions.{names_entries};

use crate::code_text::CodeText;
use crate::instr::Instr;
use data_tree::step::Path;
use std::marker::Model;

/// Instructions, and the texts and paths that they name by index: any list of instructions, well formed or
/// not.
#[derive(Debug, Drop)]
pub struct Code {
    instrs: Vec<Instr>,
    texts: Vec<CodeText>,
    paths: Vec<Path>,
}

impl Model for Code {
    ghost use Rattle.template_code.specs.Code.{StackCode};

    ghost Value = { StackCode };

    ghost view = { λ c. record { instrs = c.instrs.items; texts = c.texts.items; paths = c.paths.items } };
}

impl Code {
    /// Takes the three lists over, without copying them.
    pub fn new(instrs: Vec<Instr>, texts: Vec<CodeText>, paths: Vec<Path>) -> Code
        ensures instrs { result.instrs ≡ instrs.items }
        ensures texts { result.texts ≡ texts.items }
        ensures paths { result.paths ≡ paths.items }
    {
        Code {
            instrs,
            texts,
            paths,
        }
    }

    pub fn instrs(&self) -> &[Instr]
        ensures { result.now ≡ self.now.instrs }
    {
        self.instrs.as_slice()
    }

    pub fn texts(&self) -> &[CodeText]
        ensures { result.now ≡ self.now.texts }
    {
        self.texts.as_slice()
    }

    pub fn paths(&self) -> &[Path]
        ensures { result.now ≡ self.now.paths }
    {
        self.paths.as_slice()
    }

    /// Whether the text or the path that an instruction names is there.
    pub fn has_entries_of(&self, instr: Instr) -> bool
        ensures { result ≡ names_entries self.now instr }
    {
        match instr {
            Instr::Emit(text) | Instr::Text(text) => text < self.texts.len(),
            Instr::Root(path) | Instr::Item(_, path) => path < self.paths.len(),
            _ => true,
        }
    }
}
