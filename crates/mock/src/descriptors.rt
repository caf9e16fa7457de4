// How many connections may be open at a time, where the arguments don't say: no more than the process has descriptors
// for.
ghost use Rattle.std.specs.Prelude.{◌≡◌, min};
ghost use Rattle.mock.specs.Descriptors.{connections_within};

use libc::RLIMIT_NOFILE;
use libc::types::rlimit;
use std::io::Write;

/// How many connections may be open where descriptors suffice.
const USUAL_CONNECTIONS: u64 = 900;

/// Descriptors that are no connection's: the standard streams, what listens, a file, and what wakes the process.
const OWN_DESCRIPTORS: u64 = 12;

/// Descriptors of each thread that serves.
const THREAD_DESCRIPTORS: u64 = 4;

/// Descriptors that are kept for connections to upstreams, where there are more than twice as many: a request that is
/// forwarded has one while its connection waits.
const FORWARD_DESCRIPTORS: u64 = 108;

/// How many connections may be open at a time: as many as the arguments say, or else as descriptors allow, which is
/// said where it is fewer than usual.
pub fn open_connections<E: Write>(given: Option<u64>, threads: u64, err: &mut E) -> u64 {
    if let Some(count) = given {
        return count;
    }
    let Some(limit) = descriptor_limit() else {
        return USUAL_CONNECTIONS;
    };
    let count = connections_within(limit, threads);
    if count < USUAL_CONNECTIONS {
        let _ = write!(
            err,
            "at most {count} connections are open at a time: the process may have {limit} descriptors\n"
        );
    }
    count
}

// As many as there are descriptors for beside those of the process, of its threads and for upstreams, and one at least.
// Of few descriptors half are for upstreams, so that each connection may wait for one; more aren't kept than leave the
// usual number of connections with 1,024 and one thread.
fn connections_within(limit: u64, threads: u64) -> u64
    ensures { result ≡ connections_within limit threads }
{
    let own = threads
        .saturating_mul(THREAD_DESCRIPTORS)
        .saturating_add(OWN_DESCRIPTORS);
    let free = limit.saturating_sub(own);
    (free / 2)
        .max(free.saturating_sub(FORWARD_DESCRIPTORS))
        .max(1)
        .min(USUAL_CONNECTIONS)
}

// How many descriptors the process may have, where the system says so.
fn descriptor_limit() -> Option<u64> {
    let mut limit = rlimit {
        rlim_cur: 0,
        rlim_max: 0,
    };
    if libc::getrlimit(RLIMIT_NOFILE, &mut limit) != 0 {
        return None;
    }
    Some(limit.rlim_cur)
}
