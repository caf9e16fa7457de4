//! Programs: templates that are compiled and verified, ready to be rendered.
ghost use Rattle.std.specs.Prelude.{◌≡◌, ◌<◌, ◌≤◌, ℕ, length, string_bytes, IfOk, IfErr, OnOk, IsErrOf};
ghost use Rattle.data_tree.specs.Json.{size};
ghost use Rattle.data_tree.specs.Tree.{Tree};
ghost use Rattle.needed_data.specs.Needed.{Includes, AreAlike};
ghost use Rattle.data_tree.specs.RequestData.{root_of};
ghost use Rattle.code_rules.specs.Polynomial.{value, as_printed};
ghost use Rattle.code_rules.specs.Regions.{budget};
ghost use Rattle.code_rules.specs.declared.rule.Rule.{Rule};
ghost use Rattle.template_code.specs.Machine.{Runs};
ghost use Rattle.template_tree.specs.Source.{with_escape, unescaped};
ghost use Rattle.template_machine.specs.Errors.{IsErrorOf};
ghost use Rattle.template_machine.specs.Inner.Needs.{CoversCode};
ghost use Rattle.template_machine.specs.Inner.Programs.{IsCodeOf, IsOnlyErrorOf};
ghost use Rattle.template_machine.specs.Program.{IsProgram, IsProgramText, IsMeant, FindsSame};
ghost use Rattle.safe_code.specs.Safe.{IsSafe};
ghost use Rattle.template_machine.specs.declared.error.ProgramError.TheVariants.{Template, CodeRefused, OutOfMemory};
ghost use Rattle.template_tree.specs.declared.error.TemplateErrorKind.TheVariants.{TooLong};
ghost use Rattle.template_tree.specs.declared.parser.TheConstants.{TEXT_LIMIT};

use crate::error::ProgramError;
use crate::needs::needed_by;
use crate::run::{Rendered, run};
use code_verifier::budget::Budget;
use code_verifier::verified::Verified;
use code_verifier::verify::verify;
use data_tree::request_data::RequestData;
use needed_data::needed::{KeptNeeded, Needed};
use std::alloc::{AllocError, Global};
use std::marker::Model;
use template_code::code::Code;
use template_compile::compiler::compile;
use template_tree::escape::Escape;
use template_tree::parser::parse_with;

/// A template's text, how its prints are escaped, its verified code, and what that looks at, which is found once.
/// Contracts see the first three, and only `from_text` and `from_text_with` make one.
#[derive(Debug, Drop)]
pub struct Program {
    source: String,
    escape: Escape,
    verified: Verified,
    needed: KeptNeeded,
}

impl Model for Program {
    ghost use Rattle.std.specs.Prelude.{string_bytes};
    ghost use Rattle.template_machine.specs.Inner.Needs.{CoversCode};
    ghost use Rattle.template_tree.specs.Source.{with_escape};
    ghost use Rattle.template_machine.specs.Program.{ProgramParts, IsProgram};

    ghost Value = { ProgramParts };

    ghost view = { λ p. record { source = with_escape p.escape (string_bytes p.source); code = p.verified } };

    ghost invariant = { λ p.
        IsProgram (record { source = with_escape p.escape (string_bytes p.source); code = p.verified })
        × CoversCode p.needed p.verified };
}

impl Program {
    /// The program of a template's text. Nothing is escaped.
    pub fn from_text(alloc: Global, text: &str) -> Result<Program, ProgramError>
        ensures source { IfOk result (λ program. program.source ≡ unescaped text.now) }
        ensures program { IfOk result IsProgram }
        ensures ok { OnOk result (IsProgramText (unescaped text.now)) }
        ensures exactly { IsProgramText (unescaped text.now) → IfErr result (λ error. error ≡ OutOfMemory) }
        ensures reported { IfErr result (λ error. IsErrorOf (unescaped text.now) error) }
        // However little memory there is.
        ensures too_long { TEXT_LIMIT < length text.now →
            IsErrOf result (Template (record { kind = TooLong; at = TEXT_LIMIT })) }
        ensures never_refused { (index : ℕ) (rule : Rule) → IsErrOf result (CodeRefused index rule) → ⊥ }
    {
        Program::from_text_with(alloc, text, Escape::Off)
    }

    /// The program of a template's text, whose prints are escaped so. Work and memory grow with the text's length.
    ///
    /// A text that is no template is refused by its first error, and a template whose code would be too long by that.
    pub fn from_text_with(
        alloc: Global,
        text: &str,
        escape: Escape,
    ) -> Result<Program, ProgramError>
        ensures source { IfOk result (λ program. program.source ≡ with_escape escape text.now) }
        ensures program { IfOk result IsProgram }
        ensures ok { OnOk result (IsProgramText (with_escape escape text.now)) }
        ensures exactly { IsProgramText (with_escape escape text.now)
            → IfErr result (λ error. error ≡ OutOfMemory) }
        ensures reported { IfErr result (λ error. IsErrorOf (with_escape escape text.now) error) }
        // However little memory there is.
        ensures too_long { TEXT_LIMIT < length text.now →
            IsErrOf result (Template (record { kind = TooLong; at = TEXT_LIMIT })) }
        ensures never_refused { (index : ℕ) (rule : Rule) → IsErrOf result (CodeRefused index rule) → ⊥ }
    {
        let verified = verified_code(alloc, text, escape)?;
        let needed = needed_by(alloc, verified.code())?;
        let source = String::from_str(alloc, text)?;
        Ok(Program::new(source, escape, verified, needed))
    }

    fn new(source: String, escape: Escape, verified: Verified, needed: KeptNeeded) -> Program
        requires program { IsProgram (record { source = with_escape escape (string_bytes source); code = verified }) }
        requires covers { CoversCode needed verified }
        ensures source { result.source ≡ with_escape escape (string_bytes source) }
        ensures program { IsProgram result }
    {
        Program {
            source,
            escape,
            verified,
            needed,
        }
    }

    pub fn source(&self) -> &str
        ensures { result.now ≡ self.now.source.text }
    {
        self.source.as_str()
    }

    /// How the values that it prints are escaped.
    pub fn escape(&self) -> Escape
        ensures { result ≡ self.now.source.escape }
    {
        self.escape
    }

    /// What a rendering looks at is needed too.
    pub fn add_needed<'a>(&'a self, needed: &mut Needed<'a>)
        ensures more { Includes needed.new needed.old }
        ensures finds { (r r' : Tree) → AreAlike needed.new r r' → FindsSame self.now.source r r' }
    {
        needed.add_kept(&self.needed);
    }

    /// Its verified code.
    pub fn code(&self) -> &Code
        ensures { result.now ≡ self.now.code }
    {
        self.verified.code()
    }

    /// How many steps a rendering takes and how many bytes it writes, at most.
    pub fn budget(&self) -> &Budget
        ensures steps { result.now.steps ≡ as_printed (budget self.now.code).steps }
        ensures bytes { result.now.bytes ≡ as_printed (budget self.now.code).bytes }
    {
        self.verified.budget()
    }
}

fn verified_code(alloc: Global, text: &str, escape: Escape) -> Result<Verified, ProgramError>
    ensures ok { IfOk result (λ code. IsCodeOf (with_escape escape text.now) code) }
    ensures err { IfErr result (λ error. IsOnlyErrorOf (with_escape escape text.now) error) }
    ensures too_long { TEXT_LIMIT < length text.now →
        IsErrOf result (Template (record { kind = TooLong; at = TEXT_LIMIT })) }
{
    let template = parse_with(alloc, text, escape)?;
    let code = compile(alloc, template)?;
    Ok(verify(alloc, code)?)
}

/// The text that a program's source means over a request's data, and the steps of its run.
///
/// The only error is that memory runs out, for the text or for one that a helper makes.
pub fn render<'a>(
    alloc: Global,
    program: &'a Program,
    request: &'a RequestData,
) -> Result<Rendered, AllocError>
    ensures safe { IsSafe program.now.code }
    ensures meant { IfOk result
        (λ rendered. IsMeant program.now.source (root_of request.now) (string_bytes rendered.text)) }
    ensures run { IfOk result
        (λ rendered. Runs program.now.code (root_of request.now) rendered.steps (string_bytes rendered.text)) }
    ensures steps { IfOk result
        (λ rendered. rendered.steps ≤ value (budget program.now.code).steps (size (root_of request.now))) }
    ensures bytes { IfOk result (λ rendered.
        length (string_bytes rendered.text) ≤ value (budget program.now.code).bytes (size (root_of request.now))) }
{
    run(alloc, &program.verified, request)
}
