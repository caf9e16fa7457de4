// How long the rest of content that is too long is read.
ghost use Rattle.futures.specs.Task.{Keeps};

use futures::task::Context;
use std::time::{Clock, Duration};
use tokio::time::{Handle, Sleep};

/// In seconds.
pub const PATIENCE: u64 = 10;

/// A time that begins when it is asked for first.
#[derive(Drop)]
pub struct Patience<R> {
    clock: R,
    timers: Handle,
    /// `None` where it hasn't begun.
    sleep: Option<Sleep>,
}

impl<R> Patience<R> {
    pub fn new(clock: R, timers: Handle) -> Patience<R> {
        Patience {
            clock,
            timers,
            sleep: None,
        }
    }
}

impl<R: Clock> Patience<R> {
    /// Whether it is over, or there is no timer for it. Otherwise the task is woken when it is.
    pub fn is_over(&mut self, cx: &mut Context<'_>) -> bool
        ensures { Keeps cx.old cx.new }
    {
        let limit = Duration::from_secs(PATIENCE);
        match &mut self.sleep {
            Some(sleep) => sleep.poll_elapsed(cx).is_ready(),
            None => match self.timers.sleep(&self.clock, limit) {
                Ok(mut sleep) => {
                    let is_over = sleep.poll_elapsed(cx).is_ready();
                    self.sleep = Some(sleep);
                    is_over
                }
                Err(_error) => true,
            },
        }
    }
}
