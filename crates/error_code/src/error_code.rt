// The codes of errors.
ghost use Rattle.std.specs.Prelude.{◌≡◌};
ghost use Rattle.error_code.specs.Codes.{number_of, title_of, status_of};

/// What went wrong.
#[derive(Clone, Copy, Debug, PartialEq, Eq)]
pub enum ErrorCode {
    BadDocument,
    NumberNotWhole,
    UnsupportedField,
    BadPattern,
    BadUrl,
    UnclosedTag,
    UnexpectedClose,
    UnknownHelper,
    WrongArguments,
    TooDeep,
    TooLong,
    BadPath,
    UnsupportedTag,
    CodeRefused,
    UnknownMapping,
    UnknownScenario,
    UnknownState,
    AlreadyRecording,
    NotRecording,
    BadTarget,
    RecordingFull,
    HistoryFull,
    TooManyMappings,
    UnknownAdminCall,
    OutOfMemory,
    TooLarge,
    OverBudget,
    UpstreamFailed,
    MomentOutOfRange,
}

impl ErrorCode {
    /// The number that is printed, as in `error 20`.
    pub fn number(self) -> u16
        ensures { result ≡ number_of self }
    {
        match self {
            ErrorCode::BadDocument => 10,
            ErrorCode::NumberNotWhole => 11,
            ErrorCode::UnsupportedField => 12,
            ErrorCode::BadPattern => 13,
            ErrorCode::BadUrl => 14,
            ErrorCode::UnclosedTag => 20,
            ErrorCode::UnexpectedClose => 21,
            ErrorCode::UnknownHelper => 22,
            ErrorCode::WrongArguments => 23,
            ErrorCode::TooDeep => 24,
            ErrorCode::TooLong => 25,
            ErrorCode::BadPath => 26,
            ErrorCode::UnsupportedTag => 27,
            ErrorCode::CodeRefused => 28,
            ErrorCode::UnknownMapping => 40,
            ErrorCode::UnknownScenario => 41,
            ErrorCode::UnknownState => 42,
            ErrorCode::AlreadyRecording => 43,
            ErrorCode::NotRecording => 44,
            ErrorCode::BadTarget => 45,
            ErrorCode::RecordingFull => 46,
            ErrorCode::HistoryFull => 47,
            ErrorCode::TooManyMappings => 48,
            ErrorCode::UnknownAdminCall => 49,
            ErrorCode::OutOfMemory => 50,
            ErrorCode::TooLarge => 51,
            ErrorCode::OverBudget => 52,
            ErrorCode::UpstreamFailed => 53,
            ErrorCode::MomentOutOfRange => 54,
        }
    }

    /// The words that follow the number.
    pub fn title(self) -> &'static str
        ensures { result.now ≡ title_of self }
    {
        match self {
            ErrorCode::BadDocument => "bad document",
            ErrorCode::NumberNotWhole => "number not whole",
            ErrorCode::UnsupportedField => "unsupported field",
            ErrorCode::BadPattern => "bad pattern",
            ErrorCode::BadUrl => "bad url",
            ErrorCode::UnclosedTag => "unclosed tag",
            ErrorCode::UnexpectedClose => "unexpected close",
            ErrorCode::UnknownHelper => "unknown helper",
            ErrorCode::WrongArguments => "wrong arguments",
            ErrorCode::TooDeep => "too deep",
            ErrorCode::TooLong => "too long",
            ErrorCode::BadPath => "bad path",
            ErrorCode::UnsupportedTag => "unsupported tag",
            ErrorCode::CodeRefused => "code refused",
            ErrorCode::UnknownMapping => "unknown mapping",
            ErrorCode::UnknownScenario => "unknown scenario",
            ErrorCode::UnknownState => "unknown state",
            ErrorCode::AlreadyRecording => "already recording",
            ErrorCode::NotRecording => "not recording",
            ErrorCode::BadTarget => "bad target",
            ErrorCode::RecordingFull => "recording full",
            ErrorCode::HistoryFull => "history full",
            ErrorCode::TooManyMappings => "too many mappings",
            ErrorCode::UnknownAdminCall => "unknown admin call",
            ErrorCode::OutOfMemory => "out of memory",
            ErrorCode::TooLarge => "too large",
            ErrorCode::OverBudget => "over budget",
            ErrorCode::UpstreamFailed => "upstream failed",
            ErrorCode::MomentOutOfRange => "moment out of range",
        }
    }

    /// The HTTP status (RFC 9110, section 15) of an answer that reports it. `None` for a full recording, which no
    /// answer reports: the exchange is relayed and not recorded. The target of a request that is being answered is
    /// refused with 400 in place of `BadUrl`'s 422.
    pub fn status(self) -> Option<u16>
        ensures { result ≡ status_of self }
    {
        match self {
            ErrorCode::BadDocument
            | ErrorCode::NumberNotWhole
            | ErrorCode::UnsupportedField
            | ErrorCode::BadPattern
            | ErrorCode::BadUrl
            | ErrorCode::UnclosedTag
            | ErrorCode::UnexpectedClose
            | ErrorCode::UnknownHelper
            | ErrorCode::WrongArguments
            | ErrorCode::TooDeep
            | ErrorCode::TooLong
            | ErrorCode::BadPath
            | ErrorCode::UnsupportedTag
            | ErrorCode::CodeRefused
            | ErrorCode::UnknownState
            | ErrorCode::BadTarget
            | ErrorCode::MomentOutOfRange => Some(422),
            ErrorCode::UnknownMapping | ErrorCode::UnknownScenario | ErrorCode::UnknownAdminCall =>
                Some(404),
            ErrorCode::AlreadyRecording | ErrorCode::NotRecording => Some(409),
            ErrorCode::HistoryFull | ErrorCode::TooManyMappings | ErrorCode::OutOfMemory => Some(
                503,
            ),
            ErrorCode::TooLarge => Some(413),
            ErrorCode::OverBudget => Some(500),
            ErrorCode::UpstreamFailed => Some(502),
            ErrorCode::RecordingFull => None,
        }
    }
}
