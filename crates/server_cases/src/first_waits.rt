//! A pause point that holds its first call until its second.

use shared_book::gate::Gate;
use std::alloc::AllocError;
use std::sync::atomic::{AtomicU64, Ordering};
use std::thread;

/// Gives up after 20,000,000 turns, in each of which another thread may run.
#[derive(Drop)]
pub struct FirstWaits {
    calls: AtomicU64,
    /// The sum of the numbers that it was told.
    told: AtomicU64,
    /// Whether a call that was waited for didn't come.
    gave_up: AtomicU64,
}

impl FirstWaits {
    pub fn new() -> FirstWaits {
        FirstWaits {
            calls: AtomicU64::new(0),
            told: AtomicU64::new(0),
            gave_up: AtomicU64::new(0),
        }
    }

    /// How often it was called.
    pub fn count(&self) -> u64 {
        self.calls.load(Ordering::SeqCst)
    }

    /// What the numbers add up to that it was told.
    pub fn told(&self) -> u64 {
        self.told.load(Ordering::SeqCst)
    }

    /// Waits until it was called this often.
    pub fn wait_for(&self, count: u64) {
        for _turn in 0..20_000_000u32 {
            if self.count() >= count {
                return;
            }
            thread::yield_now();
        }
        self.gave_up.store(1, Ordering::SeqCst);
    }

    /// An error where it gave up: perhaps there was no memory for a thread.
    pub fn held(&self) -> Result<(), AllocError> {
        match self.gave_up.load(Ordering::SeqCst) {
            0 => Ok(()),
            _ => Err(AllocError),
        }
    }
}

impl Gate for FirstWaits {
    fn between_choice_and_render(&self, number: u64) {
        self.told.fetch_add(number, Ordering::SeqCst);
        if self.calls.fetch_add(1, Ordering::SeqCst) == 0 {
            self.wait_for(2);
        }
    }
}
