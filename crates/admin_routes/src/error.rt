// Why a request is no admin call.
ghost use Rattle.std.specs.Prelude.{◌≡◌};

use admin_json::error::BodyError;
use error_code::error_code::ErrorCode;
use mapping_json::error::MappingError;
use mapping_json::request_error::RequestDocumentError;
use std::alloc::AllocError;

/// Why a request is no admin call. An unknown call is reported first, then an id that is none, then the body.
#[derive(Clone, Copy, Debug)]
pub enum AdminError {
    /// No call has this method and path.
    UnknownCall,
    /// What is in the place of an id is no UUID.
    UnknownMapping,
    Mapping(MappingError),
    Matcher(RequestDocumentError),
    State(BodyError),
    Start(BodyError),
    /// Memory ran out where the name of a scenario was decoded. Where it ran out in a body, the body's error says so.
    OutOfMemory,
}

impl AdminError {
    ghost use Rattle.admin_routes.specs.Errors.{error_code_of};

    pub fn error_code(self) -> ErrorCode
        ensures { result ≡ error_code_of self }
    {
        match self {
            AdminError::UnknownCall => ErrorCode::UnknownAdminCall,
            AdminError::UnknownMapping => ErrorCode::UnknownMapping,
            AdminError::Mapping(error) => error.error_code(),
            AdminError::Matcher(error) => error.error_code(),
            AdminError::State(error) => error.error_code(),
            AdminError::Start(error) => error.error_code(),
            AdminError::OutOfMemory => ErrorCode::OutOfMemory,
        }
    }
}

impl From<AllocError> for AdminError {
    ghost use Rattle.admin_routes.specs.declared.error.AdminError.TheVariants.{OutOfMemory};

    ghost from_gives = { λ _ error. error ≡ OutOfMemory };

    fn from(_: AllocError) -> AdminError {
        AdminError::OutOfMemory
    }
}

impl From<MappingError> for AdminError {
    ghost use Rattle.admin_routes.specs.declared.error.AdminError.TheVariants.{Mapping};

    ghost from_gives = { λ given error. error ≡ Mapping given };

    fn from(error: MappingError) -> AdminError {
        AdminError::Mapping(error)
    }
}

impl From<RequestDocumentError> for AdminError {
    ghost use Rattle.admin_routes.specs.declared.error.AdminError.TheVariants.{Matcher};

    ghost from_gives = { λ given error. error ≡ Matcher given };

    fn from(error: RequestDocumentError) -> AdminError {
        AdminError::Matcher(error)
    }
}

impl From<BodyError> for AdminError {
    ghost use Rattle.admin_routes.specs.declared.error.AdminError.TheVariants.{State};

    ghost from_gives = { λ given error. error ≡ State given };

    fn from(error: BodyError) -> AdminError {
        AdminError::State(error)
    }
}
