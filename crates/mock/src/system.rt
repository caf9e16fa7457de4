// What the server takes of the system.
use command_output::files::FileReader;
use mapping_files::file_writer::FileWriter;
use std::alloc::AllocGlobal;
use std::net::{Net, TcpListener, TcpStream};
use std::random::RandomSource;
use std::sync::Wait;
use std::thread::Threads;
use std::time::Clock;

/// Threads and their locks, sockets, the time, random numbers, memory and files.
pub(crate) trait System: Threads
    + Wait
    + Net<Listener = TcpListener, Stream = TcpStream>
    + Clock
    + RandomSource
    + AllocGlobal
    + FileReader
    + FileWriter
    + Copy
    + Drop
    + Send
    + Sync
    + 'static {}

impl<R> System for R
where
    R: Threads
        + Wait
        + Net<Listener = TcpListener, Stream = TcpStream>
        + Clock
        + RandomSource
        + AllocGlobal
        + FileReader
        + FileWriter
        + Copy
        + Drop
        + Send
        + Sync
        + 'static,
{}
