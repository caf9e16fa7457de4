// What time it is.
use std::time::{SystemTime, UNIX_EPOCH};

/// Tells the time at which a forwarded request is started, and at which its reply has come.
pub trait Clock {
    /// In milliseconds since the Unix epoch.
    fn now_ms(&self) -> u64;
}

/// The machine's clock: 0 where it can't be read, or is set to a time before the epoch.
#[derive(Clone, Copy, Debug)]
pub struct SystemClock<R> {
    rt: R,
}

impl<R> SystemClock<R> {
    pub fn new(rt: R) -> SystemClock<R> {
        SystemClock { rt }
    }
}

impl<R: std::time::Clock> Clock for SystemClock<R> {
    fn now_ms(&self) -> u64 {
        let Ok(now) = SystemTime::now(&self.rt) else {
            return 0;
        };
        match now.duration_since(UNIX_EPOCH) {
            Ok(passed) => u64::try_from(passed.as_millis()).unwrap_or(u64::MAX),
            Err(_earlier) => 0,
        }
    }
}
