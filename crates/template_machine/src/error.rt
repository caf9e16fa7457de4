//! Why a text is no program.

use code_rules::rule::Rule;
use code_verifier::error::VerifyError;
use error_code::error_code::ErrorCode;
use std::alloc::AllocError;
use template_compile::error::CompileError;
use template_tree::error::{ParseError, TemplateError};

/// Why there is no program for a text.
#[derive(Clone, Copy, Debug)]
pub enum ProgramError {
    Template(TemplateError),
    /// The code would have more than `MAX_INSTRUCTIONS` instructions.
    CodeTooLong,
    /// The instruction with this index breaks this rule of the verifier. `from_text` never gives it.
    CodeRefused { index: usize, rule: Rule },
    OutOfMemory,
}

impl ProgramError {
    ghost use Rattle.std.specs.Prelude.{◌≡◌};
    ghost use Rattle.template_machine.specs.Errors.{error_code_of, offset_of};

    pub fn error_code(&self) -> ErrorCode
        ensures { result ≡ error_code_of self.now }
    {
        match self {
            ProgramError::Template(error) => error.error_code(),
            ProgramError::CodeTooLong => ErrorCode::TooLong,
            ProgramError::CodeRefused { .. } => ErrorCode::CodeRefused,
            ProgramError::OutOfMemory => ErrorCode::OutOfMemory,
        }
    }

    /// The byte of the text at which the error is reported: 0 for code that is too long.
    pub fn at(&self) -> Option<usize>
        ensures { result ≡ offset_of self.now }
    {
        match self {
            ProgramError::Template(error) => Some(error.at),
            ProgramError::CodeTooLong => Some(0),
            ProgramError::CodeRefused { .. } | ProgramError::OutOfMemory => None,
        }
    }
}

impl From<ParseError> for ProgramError {
    ghost use Rattle.std.specs.Prelude.{◌≡◌};
    ghost use Rattle.template_machine.specs.Inner.Conversions.{of_parse};

    ghost from_gives = { λ lower error. error ≡ of_parse lower };

    fn from(lower: ParseError) -> ProgramError {
        match lower {
            ParseError::Template(error) => ProgramError::Template(error),
            ParseError::OutOfMemory => ProgramError::OutOfMemory,
        }
    }
}

impl From<CompileError> for ProgramError {
    ghost use Rattle.std.specs.Prelude.{◌≡◌};
    ghost use Rattle.template_machine.specs.Inner.Conversions.{of_compile};

    ghost from_gives = { λ lower error. error ≡ of_compile lower };

    fn from(lower: CompileError) -> ProgramError {
        match lower {
            CompileError::TooLong => ProgramError::CodeTooLong,
            CompileError::OutOfMemory => ProgramError::OutOfMemory,
        }
    }
}

impl From<VerifyError> for ProgramError {
    ghost use Rattle.std.specs.Prelude.{◌≡◌};
    ghost use Rattle.template_machine.specs.Inner.Conversions.{of_verify};

    ghost from_gives = { λ lower error. error ≡ of_verify lower };

    fn from(lower: VerifyError) -> ProgramError {
        match lower {
            VerifyError::CodeRefused {
                code: _,
                index,
                rule,
            } => ProgramError::CodeRefused { index, rule },
            VerifyError::OutOfMemory { code: _ } => ProgramError::OutOfMemory,
        }
    }
}

impl From<AllocError> for ProgramError {
    ghost use Rattle.std.specs.Prelude.{◌≡◌};
    ghost use Rattle.template_machine.specs.declared.error.ProgramError.TheVariants.{OutOfMemory};

    ghost from_gives = { λ _ error. error ≡ OutOfMemory };

    fn from(_error: AllocError) -> ProgramError {
        ProgramError::OutOfMemory
    }
}
