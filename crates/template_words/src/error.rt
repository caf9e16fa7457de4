// Why a tag can't be read.
ghost use Rattle.std.specs.Prelude.{◌≡◌};
ghost use Rattle.template_words.specs.Errors.{joined};
ghost use Rattle.template_words.specs.declared.error.ReadError.TheVariants.{OutOfMemory};

use error_code::error_code::ErrorCode;
use std::alloc::{AllocError, AllocFailed};

/// What is wrong with a tag.
#[derive(Clone, Copy, Debug)]
pub enum TagError {
    /// It has no close, or it opens a block that has none.
    UnclosedTag,
    /// It closes another block than the innermost open one, or is an else where none may be.
    UnexpectedClose,
    /// A word with arguments is no helper.
    UnknownHelper,
    /// The number or the form of a helper's or a block's arguments is wrong.
    WrongArguments,
    /// Loops, blocks or calls nest too deeply.
    TooDeep,
    /// A path, a JSON path or another word is spelled wrongly.
    BadPath,
    /// It is of a kind that templates don't have here.
    UnsupportedTag,
}

impl TagError {
    ghost use Rattle.template_words.specs.Errors.{error_code_of, rank, earlier};

    pub fn error_code(self) -> ErrorCode
        ensures { result ≡ error_code_of self }
    {
        match self {
            TagError::UnclosedTag => ErrorCode::UnclosedTag,
            TagError::UnexpectedClose => ErrorCode::UnexpectedClose,
            TagError::UnknownHelper => ErrorCode::UnknownHelper,
            TagError::WrongArguments => ErrorCode::WrongArguments,
            TagError::TooDeep => ErrorCode::TooDeep,
            TagError::BadPath => ErrorCode::BadPath,
            TagError::UnsupportedTag => ErrorCode::UnsupportedTag,
        }
    }

    fn rank(self) -> u8
        ensures { result ≡ rank self }
    {
        match self {
            TagError::UnclosedTag => 0,
            TagError::UnsupportedTag => 1,
            TagError::UnexpectedClose => 2,
            TagError::UnknownHelper => 3,
            TagError::BadPath => 4,
            TagError::WrongArguments => 5,
            TagError::TooDeep => 6,
        }
    }

    /// The one of two errors of a tag that is reported.
    pub fn earlier(self, other: TagError) -> TagError
        ensures { result ≡ earlier self other }
    {
        if self.rank() <= other.rank() {
            self
        } else {
            other
        }
    }
}

/// The error that is reported where these were found in the parts of a tag.
pub fn joined(first: Option<TagError>, second: Option<TagError>) -> Option<TagError>
    ensures { result ≡ joined first second }
{
    match (first, second) {
        (None, error) => error,
        (Some(error), None) => Some(error),
        (Some(error), Some(other)) => Some(error.earlier(other)),
    }
}

/// Why a part of a tag isn't read.
#[derive(Debug, Drop)]
pub enum ReadError {
    OutOfMemory,
    Tag(TagError),
}

impl From<AllocError> for ReadError {
    ghost from_gives = { λ _ e. e ≡ OutOfMemory };

    fn from(_error: AllocError) -> ReadError {
        ReadError::OutOfMemory
    }
}

impl<T: Drop> From<AllocFailed<T>> for ReadError {
    ghost from_gives = { λ _ e. e ≡ OutOfMemory };

    fn from(_error: AllocFailed<T>) -> ReadError {
        ReadError::OutOfMemory
    }
}
