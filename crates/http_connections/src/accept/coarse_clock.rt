// The time of day of a server, as far as it is looked at.
use std::sync::atomic::{AtomicU64, Ordering};

/// Milliseconds since the first look at the clock, at the last one. Whoever accepts connections looks at it; to read it
/// costs next to nothing.
#[derive(Drop)]
pub struct CoarseClock {
    milliseconds: AtomicU64,
}

impl CoarseClock {
    pub fn new() -> CoarseClock {
        CoarseClock {
            milliseconds: AtomicU64::new(0),
        }
    }

    pub fn now(&self) -> u64 {
        self.milliseconds.load(Ordering::Relaxed)
    }

    pub fn set(&self, milliseconds: u64) {
        self.milliseconds.store(milliseconds, Ordering::Relaxed);
    }
}
