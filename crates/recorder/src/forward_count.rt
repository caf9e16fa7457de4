// How often a request was forwarded, so that servers that forward to one another end.
ghost use Rattle.std.specs.Prelude.{◌≡◌, ◌≤◌};
ghost use Rattle.recorder.specs.ForwardCount.{count_of, forward_count, is_forwarded_too_often, too_many};

use mock_request::snapshot::Snapshot;

/// How often a request is forwarded at most.
pub const FORWARD_LIMIT: u8 = 8;

/// Whether the request was forwarded as often as one is.
pub fn is_forwarded_too_often(request: &Snapshot) -> bool
    ensures { result ≡ is_forwarded_too_often request.now.headers }
{
    FORWARD_LIMIT <= forward_count(request)
}

/// How often the request was forwarded.
pub(crate) fn forward_count(request: &Snapshot) -> u8
    ensures value { result ≡ forward_count request.now.headers }
    ensures bound { result ≤ too_many }
{
    for index in 0..request.header_count() {
        if let Some((name, value)) = request.header(index) {
            if name == "x-mock-forwarded" {
                return count_of(value);
            }
        }
    }
    0
}

fn count_of(value: &[u8]) -> u8
    ensures value { result ≡ count_of value.now }
    ensures bound { result ≤ too_many }
{
    if value.len() == 1 && value[0].is_ascii_digit() {
        value[0] - b'0'
    } else {
        9
    }
}
