//! Why an upstream has given no reply, for whoever wonders about a 502.

/// Why an upstream has given no reply.
#[derive(Clone, Copy, Debug, PartialEq, Eq)]
pub enum Failure {
    /// The upstream is the server that forwards.
    OwnTarget,
    /// The request has been forwarded as often as a request is.
    ForwardedTooOften,
    /// The request has a method, a URL or headers that can't be passed on.
    Unsendable,
    /// There is no connection to the upstream.
    NotConnected,
    /// The process, or the system, has no descriptor left for a connection.
    NoDescriptor,
    /// The connection ended before the whole reply had come, or its content isn't well formed.
    Broken,
    /// What came is no well-formed reply of HTTP/1.
    NotHttp,
    /// The reply's content is in a transfer coding that can't be read.
    OtherCoding,
    /// There were more interim replies than an exchange may have.
    TooManyInterim,
    /// The head or the content of the reply is over its limit.
    TooLong,
    /// No byte was taken or given for the time that this may take.
    Silent,
}

impl Failure {
    /// The reason, in words.
    pub fn reason(self) -> &'static str {
        match self {
            Failure::OwnTarget => "the target is this server itself",
            Failure::ForwardedTooOften => {
                "the request has been forwarded too often, as between servers that forward to one another"
            }
            Failure::Unsendable =>
                "the request has a method, a URL or headers that can't be passed on",
            Failure::NotConnected => "there is no connection to the target",
            Failure::NoDescriptor => "no descriptor is left for a connection to the target",
            Failure::Broken => {
                "the connection ended before the whole reply had come, or its content isn't well formed"
            }
            Failure::NotHttp => "what came is no well-formed reply of HTTP/1",
            Failure::OtherCoding =>
                "the reply's content is in a transfer coding that can't be read",
            Failure::TooManyInterim => "the target sent too many interim replies",
            Failure::TooLong => "the reply is too long",
            Failure::Silent => "the target took and gave nothing for too long",
        }
    }
}
