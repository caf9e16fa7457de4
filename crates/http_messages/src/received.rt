// The request that a message of `http` is.
ghost use Rattle.std.specs.Prelude.{◌≡◌, ◌≤◌, ◌<◌, length, IfOk, IfSome, OnOk, IsErrOf};
ghost use Rattle.http.specs.Request.{body_of};
ghost use Rattle.http_uri.specs.Uri.{uri_text};
ghost use Rattle.http_messages.specs.Received.{IsReceived, target_of};
ghost use Rattle.mock_request.specs.Target.{HasUrl};
ghost use Rattle.mock_request.specs.declared.snapshot.TheConstants.{BODY_LIMIT};

use bytes::Bytes;
use http::{Request, Uri};
use mock_request::error::SnapshotError;
use mock_request::last_headers::LastHeaders;
use mock_request::snapshot::Snapshot;
use std::alloc::Global;

/// The request that a message is. It is a copy, which keeps nothing of the buffers of the connection that the message
/// came over. Headers that are the last ones are shared, and others are the last from now on.
pub fn snapshot_of(
    alloc: Global,
    message: &Request<Bytes>,
    last: &mut LastHeaders,
) -> Result<Snapshot, SnapshotError>
    ensures received { IfOk result (IsReceived message.now) }
    ensures within { OnOk result (length (body_of message.now) ≤ BODY_LIMIT) }

    // A bad target is reported before a body that is too large.
    ensures bad_url { IsErrOf result SnapshotError.BadUrl → ¬ (HasUrl (target_of message.now)) }
    ensures too_large { IsErrOf result SnapshotError.BodyTooLarge
        → (HasUrl (target_of message.now) × (BODY_LIMIT < length (body_of message.now))) }
{
    if let Some(path) = lone_path(message.uri()) {
        return snapshot_at(alloc, message, path, last);
    }
    snapshot_at_target(alloc, message, last)
}

// The request of the message, whose target is written as a text first. Not inlined: a function clears all its locals
// when it is entered, and a target that is a path alone needs none of these.
#[inline(never)]
fn snapshot_at_target(
    alloc: Global,
    message: &Request<Bytes>,
    last: &mut LastHeaders,
) -> Result<Snapshot, SnapshotError>
    ensures received { IfOk result (IsReceived message.now) }
    ensures within { OnOk result (length (body_of message.now) ≤ BODY_LIMIT) }
    ensures bad_url { IsErrOf result SnapshotError.BadUrl → ¬ (HasUrl (target_of message.now)) }
    ensures too_large { IsErrOf result SnapshotError.BodyTooLarge
        → (HasUrl (target_of message.now) × (BODY_LIMIT < length (body_of message.now))) }
{
    let target = message.uri().to_string(alloc)?;
    snapshot_at(alloc, message, target.as_str(), last)
}

// The text of a target that is a path alone, as most are.
fn lone_path(uri: &Uri) -> Option<&str>
    ensures { IfSome result (λ path. path.now ≡ uri_text uri.now) }
{
    match (uri.scheme_str(), uri.authority(), uri.query()) {
        (None, None, None) => Some(uri.path()),
        _ => None,
    }
}

// The request of the message, whose target has this text.
fn snapshot_at(
    alloc: Global,
    message: &Request<Bytes>,
    target: &str,
    last: &mut LastHeaders,
) -> Result<Snapshot, SnapshotError>
    requires { target.now ≡ target_of message.now }
    ensures received { IfOk result (IsReceived message.now) }
    ensures within { OnOk result (length (body_of message.now) ≤ BODY_LIMIT) }
    ensures bad_url { IsErrOf result SnapshotError.BadUrl → ¬ (HasUrl (target_of message.now)) }
    ensures too_large { IsErrOf result SnapshotError.BodyTooLarge
        → (HasUrl (target_of message.now) × (BODY_LIMIT < length (body_of message.now))) }
{
    Snapshot::received(
        alloc,
        message.method().as_str(),
        target,
        message.headers(),
        message.body().as_slice(),
        last,
    )
}
