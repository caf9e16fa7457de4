// Which connection makes room where another waits.
use crate::accept::coarse_clock::CoarseClock;
use crate::accept::connection_state::ConnectionState;
use std::alloc::{AllocError, Global};
use std::sync::Arc;
use std::time::Instant;

/// How long a connection has been silent at least that makes room, in milliseconds.
pub const SILENCE: u64 = 5_000;

/// How far apart two looks at the clock are at most, in milliseconds, so that what was heard between them is known
/// closely enough.
const LOOK: u64 = 100;

/// The states of all connections that there were at a time, and the clock, as whoever accepts connections has looked at
/// the clock.
#[derive(Drop)]
pub(crate) struct Room {
    states: Vec<Arc<ConnectionState>>,
    clock: Arc<CoarseClock>,
    first: Option<Instant>,
    /// Since when no two looks have been far apart.
    looked_since: u64,
}

impl Room {
    pub(crate) fn new(alloc: Global) -> Result<Room, AllocError> {
        Ok(Room {
            states: Vec::new(alloc),
            clock: Arc::new(alloc, CoarseClock::new())?,
            first: None,
            looked_since: 0,
        })
    }

    /// A state for the connections of one more cell.
    pub(crate) fn state(&mut self, alloc: Global) -> Result<Arc<ConnectionState>, AllocError> {
        self.states.reserve(1)?;
        let state = Arc::new(alloc, ConnectionState::new(Arc::try_clone(&self.clock)?))?;
        self.states.push(Arc::try_clone(&state)?)?;
        Ok(state)
    }

    /// Looks at the clock.
    pub(crate) fn look(&mut self, now: Instant) {
        let first = *self.first.get_or_insert(now);
        let passed = now.saturating_duration_since(first);
        let now = u64::try_from(passed.as_millis()).unwrap_or(u64::MAX);
        if now.saturating_sub(self.clock.now()) > LOOK {
            self.looked_since = now;
        }
        self.clock.set(now);
    }

    /// Asks the connection that has been silent longest, and long enough, to leave, unless one was asked before that
    /// hasn't left.
    pub(crate) fn make(&self) {
        if let Some(state) = self.longest_silent() {
            state.leave();
        }
    }

    /// Asks all connections to leave.
    pub(crate) fn clear(&self) {
        for state in &self.states {
            state.leave();
        }
    }

    fn longest_silent(&self) -> Option<&ConnectionState> {
        let limit = self.clock.now().checked_sub(SILENCE + LOOK)?;
        if self.looked_since > limit {
            return None;
        }
        let mut longest: Option<(&ConnectionState, u64)> = None;
        for state in &self.states {
            let Some(since) = state.silent_since() else {
                continue;
            };
            if state.must_leave() {
                return None;
            }
            if since <= limit && longest.is_none_or(|(_course, other)| since < other) {
                longest = Some((&**state, since));
            }
        }
        longest.map(|(state, _since)| state)
    }
}
