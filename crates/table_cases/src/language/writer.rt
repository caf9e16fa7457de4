//! A writer that takes little at a time.

use std::alloc::{AllocError, Global};
use std::io;
use std::io::{ErrorKind, Write};

/// Takes one byte a call as long as it has room, and is interrupted at each other call.
#[derive(Drop)]
pub struct SlowWriter {
    pub taken: Vec<u8>,
    room: usize,
    interrupts: bool,
}

impl SlowWriter {
    pub fn new(alloc: Global, room: usize) -> Result<SlowWriter, AllocError> {
        Ok(SlowWriter {
            taken: Vec::with_capacity(alloc, room)?,
            room,
            interrupts: false,
        })
    }
}

impl Write for SlowWriter {
    fn write(&mut self, buf: &[u8]) -> io::Result<usize> {
        self.interrupts = !self.interrupts;
        if self.interrupts {
            return Err(io::Error::from(ErrorKind::Interrupted));
        }
        match buf {
            [first, ..] if self.taken.len() < self.room => {
                self.taken.push(*first)?;
                Ok(1)
            }
            _ => Ok(0),
        }
    }

    fn flush(&mut self) -> io::Result<()> {
        Ok(())
    }
}
