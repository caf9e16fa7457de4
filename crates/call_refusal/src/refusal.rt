// Why an admin call is refused.
use admin_routes::error::AdminError;
use error_code::error_code::ErrorCode;

/// Why an admin call is refused.
#[derive(Clone, Copy, Debug)]
pub enum Refusal {
    /// A page of another site makes it.
    Foreign,
    /// It is no call.
    NoCall(AdminError),
    /// It isn't read, or it is a call that has no answer.
    Unanswered(ErrorCode),
}
