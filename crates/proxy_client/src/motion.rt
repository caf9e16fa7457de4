//! What an exchange is told of its connection.

/// What has happened on a connection since the exchange looked last.
#[derive(Clone, Copy, Debug, PartialEq, Eq)]
pub enum Motion {
    /// No byte has moved.
    Still,
    Moved,
    /// The upstream has sent more interim replies than an exchange may have. This stays.
    TooManyInterim,
}
