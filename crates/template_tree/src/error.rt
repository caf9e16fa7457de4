// Why a text is no template.

use error_code::error_code::ErrorCode;
use std::alloc::{AllocError, AllocFailed};
use template_words::error::TagError;

/// What is wrong with a template's text.
#[derive(Clone, Copy, Debug)]
pub enum TemplateErrorKind {
    /// A tag can't be read.
    Tag(TagError),
    /// The text has more than `TEXT_LIMIT` bytes.
    TooLong,
}

/// The first error of a template's text.
#[derive(Clone, Copy, Debug)]
pub struct TemplateError {
    pub kind: TemplateErrorKind,
    /// The byte of the text at which the tag begins, or `TEXT_LIMIT` where the text is too long.
    pub at: usize,
}

impl TemplateError {
    ghost use Rattle.std.specs.Prelude.{◌≡◌};
    ghost use Rattle.template_tree.specs.Errors.{error_code_of};

    pub fn error_code(&self) -> ErrorCode
        ensures { result ≡ error_code_of self.now }
    {
        match self.kind {
            TemplateErrorKind::Tag(error) => error.error_code(),
            TemplateErrorKind::TooLong => ErrorCode::TooLong,
        }
    }
}

/// Why `parse` gives no template.
#[derive(Clone, Copy, Debug)]
pub enum ParseError {
    Template(TemplateError),
    OutOfMemory,
}

impl From<TemplateError> for ParseError {
    ghost use Rattle.std.specs.Prelude.{◌≡◌};
    ghost use Rattle.template_tree.specs.declared.error.ParseError.TheVariants.{Template};

    ghost from_gives = { λ error e. e ≡ Template error };

    fn from(error: TemplateError) -> ParseError {
        ParseError::Template(error)
    }
}

impl From<AllocError> for ParseError {
    ghost use Rattle.std.specs.Prelude.{◌≡◌};
    ghost use Rattle.template_tree.specs.declared.error.ParseError.TheVariants.{OutOfMemory};

    ghost from_gives = { λ _ e. e ≡ OutOfMemory };

    fn from(_error: AllocError) -> ParseError {
        ParseError::OutOfMemory
    }
}

impl<T: Drop> From<AllocFailed<T>> for ParseError {
    ghost use Rattle.std.specs.Prelude.{◌≡◌};
    ghost use Rattle.template_tree.specs.declared.error.ParseError.TheVariants.{OutOfMemory};

    ghost from_gives = { λ _ e. e ≡ OutOfMemory };

    fn from(_error: AllocFailed<T>) -> ParseError {
        ParseError::OutOfMemory
    }
}
