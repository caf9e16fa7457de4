// Why a document spells no mapping.
ghost use Rattle.std.specs.Prelude.{◌≡◌};

use error_code::error_code::ErrorCode;
use json_reading::kind::Kind;
use request_match::error::RequestMatchError;
use std::alloc::AllocError;
use template_machine::error::ProgramError;

/// Why a document spells no mapping. What is wrong with the document is reported first, then what is wrong with the
/// request that it spells, then the first of its templates that is none.
#[derive(Clone, Copy, Debug)]
pub enum MappingError {
    Document(Kind),
    Request(RequestMatchError),
    Template(ProgramError),
    /// Memory may run out before another reason is found.
    OutOfMemory,
}

impl MappingError {
    ghost use Rattle.mapping_json.specs.Errors.{error_code_of};

    pub fn error_code(self) -> ErrorCode
        ensures { result ≡ error_code_of self }
    {
        match self {
            MappingError::Document(kind) => kind.error_code(),
            MappingError::Request(error) => error.error_code(),
            MappingError::Template(error) => error.error_code(),
            MappingError::OutOfMemory => ErrorCode::OutOfMemory,
        }
    }
}

impl From<AllocError> for MappingError {
    ghost use Rattle.mapping_json.specs.declared.error.MappingError.TheVariants.{OutOfMemory};

    ghost from_gives = { λ _ error. error ≡ OutOfMemory };

    fn from(_: AllocError) -> MappingError {
        MappingError::OutOfMemory
    }
}

impl From<RequestMatchError> for MappingError {
    ghost use Rattle.mapping_json.specs.Errors.{error_of_request};

    ghost from_gives = { λ given error. error ≡ error_of_request given };

    fn from(error: RequestMatchError) -> MappingError {
        match error {
            RequestMatchError::OutOfMemory => MappingError::OutOfMemory,
            error => MappingError::Request(error),
        }
    }
}

impl From<ProgramError> for MappingError {
    ghost use Rattle.mapping_json.specs.Errors.{error_of_template};

    ghost from_gives = { λ given error. error ≡ error_of_template given };

    fn from(error: ProgramError) -> MappingError {
        match error {
            ProgramError::OutOfMemory => MappingError::OutOfMemory,
            error => MappingError::Template(error),
        }
    }
}

/// Why a document spells no list of mappings: its first mapping that is none, by its index, or the document itself.
#[derive(Clone, Copy, Debug)]
pub struct MappingsError {
    pub index: Option<usize>,
    pub error: MappingError,
}

impl From<MappingError> for MappingsError {
    ghost use Rattle.std.specs.Prelude.{None};

    ghost from_gives = { λ given error. error ≡ record { index = None; error = given } };

    fn from(error: MappingError) -> MappingsError {
        MappingsError { index: None, error }
    }
}
