// The thread that writes.
use crate::lines::Lines;
use std::alloc::{AllocError, AllocGlobal, Global};
use std::io::Write;
use std::sync::{Arc, Wait};
use std::thread;
use std::thread::Threads;

/// Lines that a thread of their own writes to `out`. Where no thread can be started, none is written. The thread isn't
/// waited for: `Lines::close` does so for a while.
pub fn start<R, W>(rt: R, out: W) -> Result<Arc<Lines>, AllocError>
where
    R: Threads + Wait + AllocGlobal + Copy + Drop + Send + 'static,
    W: Write + Drop + Send + 'static,
{
    let lines = Arc::new(rt.alloc(), Lines::new(rt.alloc()))?;
    let theirs = Arc::try_clone(&lines)?;
    let started = thread::spawn(&rt, move || write_all(rt, &theirs, out));
    if started.is_err() {
        lines.stop(&rt);
    }
    Ok(lines)
}

fn write_all<R: Wait + AllocGlobal + Drop, W: Write + Drop>(rt: R, lines: &Lines, out: W) {
    let mut out = out;
    lines.write_to(&rt, rt.alloc(), &mut out);
}
