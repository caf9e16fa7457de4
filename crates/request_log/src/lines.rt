// Lines on their way to a writer that may be slow.
use command_output::output::put;
use itoa::Buffer;
use std::alloc::{AllocError, Global};
use std::io::Write;
use std::mem;
use std::sync::{Condvar, Mutex, Wait};
use std::time::{Clock, Duration};

/// How many bytes of lines may wait.
const LIMIT: usize = 1_048_576;

/// Lines that wait to be written, by a thread of their own. Whoever adds one never waits for the writer: what has no
/// room is dropped, and counted.
#[derive(Drop)]
pub struct Lines {
    waiting: Mutex<Waiting>,
    changed: Condvar,
}

#[derive(Drop)]
struct Waiting {
    text: String,
    /// How many lines were dropped since that was last told.
    dropped: u64,
    /// Whether no more come.
    is_closed: bool,
    /// Whether no more are written.
    is_done: bool,
}

impl Lines {
    pub fn new(alloc: Global) -> Lines {
        Lines {
            waiting: Mutex::new(Waiting {
                text: String::new(alloc),
                dropped: 0,
                is_closed: false,
                is_done: false,
            }),
            changed: Condvar::new(),
        }
    }

    /// Adds whole lines.
    pub fn add<R: Wait>(&self, rt: &R, lines: &str) {
        self.waiting.lock(rt).add(lines);
        self.changed.notify_all();
    }

    /// Writes the lines as they come: to the last, or until the writer fails.
    pub fn write_to<R: Wait, W: Write>(&self, rt: &R, alloc: Global, out: &mut W) {
        let mut text = String::new(alloc);
        for _ in rt.forever() {
            let is_last = self.take(rt, &mut text);
            if put(out, text.as_bytes()).is_err() || is_last {
                break;
            }
            text.clear();
        }
        self.stop(rt);
    }

    /// No more lines are written, and what is added from now on is dropped.
    pub fn stop<R: Wait>(&self, rt: &R) {
        self.waiting.lock(rt).is_done = true;
        self.changed.notify_all();
    }

    /// No more lines come. Waits until the last is written, but for at most this time.
    pub fn close<R: Wait + Clock>(&self, rt: &R, time: Duration) {
        let mut waiting = self.waiting.lock(rt);
        waiting.is_closed = true;
        self.changed.notify_all();
        let _ = self
            .changed
            .wait_timeout_while(rt, waiting, time, |waiting| !waiting.is_done);
    }

    // Waits for lines, and takes them all. `text` is empty. Whether no more come.
    fn take<R: Wait>(&self, rt: &R, text: &mut String) -> bool {
        let mut waiting = self
            .changed
            .wait_while(rt, self.waiting.lock(rt), |waiting| waiting.has_none());
        mem::swap(&mut waiting.text, text);
        let dropped = mem::replace(&mut waiting.dropped, 0);
        let is_closed = waiting.is_closed;
        drop(waiting);
        // Where there is no memory to tell it, it isn't told.
        let _ = push_dropped(text, dropped);
        is_closed
    }
}

impl Waiting {
    fn has_none(&self) -> bool {
        self.text.is_empty() && self.dropped == 0 && !self.is_closed
    }

    fn add(&mut self, lines: &str) {
        if self.is_done || !self.push(lines) {
            self.dropped = self.dropped.saturating_add(1);
        }
    }

    // Whether there was room.
    fn push(&mut self, lines: &str) -> bool {
        if self.text.len().saturating_add(lines.len()) > LIMIT {
            return false;
        }
        self.text.push_str(lines).is_ok()
    }
}

fn push_dropped(text: &mut String, dropped: u64) -> Result<(), AllocError> {
    if dropped == 0 {
        return Ok(());
    }
    let mut digits = Buffer::new();
    text.push_str("  .. ")?;
    text.push_str(digits.format(dropped))?;
    text.push_str(" messages dropped: they came faster than they were written\n")
}
