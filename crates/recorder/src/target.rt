// Where a recording forwards requests to.
ghost use Rattle.std.specs.Prelude.{◌≡◌, ◌↔◌, ◌⊎◌, IsTrue, IfOk, IsErr, IsErrOf};
ghost use Rattle.recorder.specs.Forwarding.{target_authority};
ghost use Rattle.recorder.specs.Target.{IsTarget, after_scheme, target_host, target_port, target_prefix};

use crate::error::RecordingError;
pub use crate::target_text::in_brackets;
use crate::target_text::{after_scheme, is_target, path, split_prefix, without_last_slash};
use mock_request::authority::host_and_port;
use plain_text::plain::Same;
use plain_text::text::Text;
use std::alloc::{AllocError, Global};
use std::marker::Model;

/// Where a recording forwards requests to, which contracts see as its text.
pub struct Target {
    text: Text,
}

// Written out, so that a caller's proof sees one call and not the drop of each part.
impl Drop for Target {
    fn drop(self) {
        let Target { text: _text } = self;
    }
}

impl Model for Target {
    ghost use Rattle.std.specs.Prelude.{List, ℕ};
    ghost use Rattle.recorder.specs.Forwarding.{target_authority};
    ghost use Rattle.recorder.specs.Target.{IsTarget};

    ghost Value = { List ℕ };

    ghost view = { λ t. t.text };

    ghost invariant = { λ t. IsTarget t.text };
}

impl Target {
    pub fn parse(alloc: Global, text: &str) -> Result<Target, RecordingError>
        ensures value { IfOk result (λ target. target ≡ text.now) }
        ensures bad_target { IsErrOf result RecordingError.BadTarget ↔ ¬ (IsTarget text.now) }
        ensures why { IsErr result → IsErrOf result RecordingError.BadTarget
            ⊎ IsErrOf result RecordingError.OutOfMemory }
    {
        if !is_target(text) {
            return Err(RecordingError::BadTarget);
        }
        Ok(Target {
            text: Text::from(String::from_str(alloc, text)?),
        })
    }

    /// The text as it was written.
    pub fn as_str(&self) -> &str
        ensures value { result.now ≡ self.now }
        ensures target { IsTarget result.now }
    {
        self.text.as_str()
    }

    /// The host as it was written; an address in version 6 is in brackets.
    pub fn host(&self) -> &str
        ensures { result.now ≡ target_host self.now }
    {
        let (authority, _prefix) = split_prefix(self.rest());
        let (host, _port) = host_and_port(authority);
        host
    }

    /// The host and the port as they were written.
    pub fn authority(&self) -> &str
        ensures { result.now ≡ target_authority self.now }
    {
        let (authority, _prefix) = split_prefix(self.rest());
        authority
    }

    /// The port, 80 where none is written.
    pub fn port(&self) -> u16
        ensures { result ≡ target_port self.now }
    {
        let (authority, _prefix) = split_prefix(self.rest());
        let (_host, port) = host_and_port(authority);
        port
    }

    /// What is written after the host and port, from its slash on, but without a slash at its end: what a forwarded URL
    /// has before the request's.
    pub fn prefix(&self) -> &str
        ensures { result.now ≡ target_prefix self.now }
    {
        without_last_slash(path(self.rest()))
    }

    fn rest(&self) -> &str
        ensures { result.now ≡ after_scheme self.now }
    {
        match after_scheme(self.text.as_str()) {
            Some(rest) => rest,
            None => unreachable!(),
        }
    }

    pub fn same(&self, other: &Target) -> bool
        ensures { IsTrue result ↔ (self.now ≡ other.now) }
    {
        self.text.same(&other.text)
    }
}

impl Clone for Target {
    ghost use Rattle.std.specs.Prelude.{◌≡◌};

    ghost is_clone = { λ original copy. copy ≡ original };

    fn clone(&self) -> Result<Target, AllocError> {
        Ok(Target {
            text: self.text.clone()?,
        })
    }
}

impl Same for Target {
    fn same(&self, other: &Target) -> bool {
        Target::same(self, other)
    }
}
