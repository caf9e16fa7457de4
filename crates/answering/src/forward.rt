// What is to be forwarded.
use recorder::target::Target;
use request_journal::shared_request::SharedRequest;

/// A request that was served to be forwarded, because a recording is on.
pub struct Forward {
    /// That of the serve's event.
    pub number: u64,
    pub request: SharedRequest,
    pub target: Target,
    /// When it was started, in milliseconds since the Unix epoch.
    pub started_ms: u64,
}

// Written out, so that a caller's proof sees one call and not the drop of each part.
impl Drop for Forward {
    fn drop(self) {
        let Forward {
            number: _number,
            request: _request,
            target: _target,
            started_ms: _started_ms,
        } = self;
    }
}
