// A template of a response.
ghost use Rattle.std.specs.Prelude.{◌≡◌, ℕ, IfOk, IfErr, OnOk, IsErrOf};
ghost use Rattle.code_rules.specs.declared.rule.Rule.{Rule};
ghost use Rattle.template_tree.specs.Source.{with_escape};
ghost use Rattle.template_machine.specs.Errors.{IsErrorOf};
ghost use Rattle.template_machine.specs.Program.{IsProgram, IsProgramText};
ghost use Rattle.template_machine.specs.declared.error.ProgramError.TheVariants.{CodeRefused, OutOfMemory};

use plain_text::plain::Same;
use std::alloc::{AllocError, Global};
use std::marker::Model;
use std::sync::Arc;
use template_machine::error::ProgramError;
use template_machine::program::Program;
use template_tree::escape::Escape;

/// A template with its verified program, which copies share. Contracts see its text and how its prints are escaped, by
/// which the program is determined.
#[derive(Clone, Drop)]
pub struct TemplateText {
    program: Arc<Program>,
}

impl Model for TemplateText {
    ghost use Rattle.std.specs.Arc.{arc_value};
    ghost use Rattle.template_tree.specs.Source.{Source};
    ghost use Rattle.template_machine.specs.Program.{IsProgram};

    ghost Value = { Source };

    ghost view = { λ t. (arc_value t.program).source };

    ghost invariant = { λ t. IsProgram (arc_value t.program) };
}

impl TemplateText {
    /// The template of a text, whose prints are escaped so. The errors are those of the text's program.
    pub fn from_text_with(
        alloc: Global,
        text: &str,
        escape: Escape,
    ) -> Result<TemplateText, ProgramError>
        ensures source { IfOk result (λ template. template ≡ with_escape escape text.now) }
        ensures ok { OnOk result (IsProgramText (with_escape escape text.now)) }
        ensures exactly { IsProgramText (with_escape escape text.now)
            → IfErr result (λ error. error ≡ OutOfMemory) }
        ensures reported { IfErr result (λ error. IsErrorOf (with_escape escape text.now) error) }
        ensures never_refused { (index : ℕ) (rule : Rule) → IsErrOf result (CodeRefused index rule) → ⊥ }
    {
        let program = Program::from_text_with(alloc, text, escape)?;
        Ok(TemplateText {
            program: Arc::new(alloc, program).map_err(AllocError::from)?,
        })
    }

    pub fn source(&self) -> &str
        ensures { result.now ≡ self.now.text }
    {
        self.program.source()
    }

    pub fn escape(&self) -> Escape
        ensures { result ≡ self.now.escape }
    {
        self.program.escape()
    }

    pub fn program(&self) -> &Program
        ensures source { result.now.source ≡ self.now }
        ensures program { IsProgram result.now }
    {
        &self.program
    }
}

impl Same for TemplateText {
    fn same(&self, other: &TemplateText) -> bool {
        self.source() == other.source() && self.escape().same(other.escape())
    }
}
