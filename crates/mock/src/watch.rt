// The thread that waits for the end of standard input, ends the recording then, and the server once that is written.
use crate::system::System;
use http_connections::ender::Ender;
use mapping_files::recorded::{RecordError, Recorded, end_recording};
use request_log::lines::Lines;
use std::alloc::{AllocError, Global};
use std::io::{ErrorKind, Read};
use std::net::{IpAddr, Ipv4Addr, Ipv6Addr, SocketAddr};
use std::sync::{Arc, Mutex, Wait};
use std::{io, thread};

// Where what was recorded is then.
const GOES_ON: &str =
    "  the server goes on with what it has recorded (GET /__admin/mappings, GET /__admin/recordings/har); Ctrl-C ends it\n";

/// What is done when standard input ends.
#[derive(Drop)]
pub(crate) struct Watch<I> {
    /// `None` where nothing is.
    input: Option<I>,
    recording: Option<RecordedFiles>,
    /// Where it is said why a recording isn't written.
    lines: Option<Arc<Lines>>,
}

/// Where a recording is written, and whether it was.
#[derive(Drop)]
pub(crate) struct RecordedFiles {
    file: String,
    har: Option<String>,
    outcome: Arc<Outcome>,
}

/// What became of a recording.
#[derive(Drop)]
pub(crate) struct Outcome {
    /// `None` as long as it isn't written.
    ended: Mutex<Option<Recorded>>,
}

impl Outcome {
    pub(crate) fn new() -> Outcome {
        Outcome {
            ended: Mutex::new(None),
        }
    }

    pub(crate) fn get<R: Wait>(&self, rt: &R) -> Option<Recorded> {
        *self.ended.lock(rt)
    }

    fn set<R: Wait>(&self, rt: &R, recorded: Recorded) {
        *self.ended.lock(rt) = Some(recorded);
    }
}

impl RecordedFiles {
    pub(crate) fn new(
        alloc: Global,
        file: &str,
        har: Option<&str>,
        outcome: Arc<Outcome>,
    ) -> Result<RecordedFiles, AllocError> {
        Ok(RecordedFiles {
            file: String::from_str(alloc, file)?,
            har: match har {
                Some(path) => Some(String::from_str(alloc, path)?),
                None => None,
            },
            outcome,
        })
    }

    fn har(&self) -> Option<&str> {
        match &self.har {
            Some(path) => Some(path.as_str()),
            None => None,
        }
    }

    // Writes it, or says why it can't be.
    fn is_written<R: System>(&self, rt: &R, address: &str, lines: &Option<Arc<Lines>>) -> bool {
        match end_recording(rt, address, self.file.as_str(), self.har()) {
            Ok(recorded) => {
                self.outcome.set(rt, recorded);
                true
            }
            Err(error) => {
                if let Some(lines) = lines {
                    self.tell(rt, lines, error);
                }
                false
            }
        }
    }

    // How the recording ends. It is said if there is memory for it.
    fn tell_end<R: System>(&self, rt: &R, lines: &Lines) {
        let file = self.file.as_str();
        if let Ok(text) = format!(in rt.alloc();
            "recording: Ctrl-C, or the end of standard input, ends it and writes {file}\n"
        ) {
            lines.add(rt, text.as_str());
        }
    }

    // It is said if there is memory for it.
    fn tell<R: System>(&self, rt: &R, lines: &Lines, error: RecordError) {
        if let Ok(text) = error.text(rt.alloc(), self.file.as_str(), self.har().unwrap_or("")) {
            lines.add(rt, text.as_str());
            lines.add(rt, GOES_ON);
        }
    }
}

impl<I: Read + Drop + Send + 'static> Watch<I> {
    /// The server ends with the input, or goes on.
    pub(crate) fn of_server(input: I, ends_with_input: bool) -> Watch<I> {
        Watch {
            input: if ends_with_input { Some(input) } else { None },
            recording: None,
            lines: None,
        }
    }

    /// What is recorded is written once the input has ended.
    pub(crate) fn of_recording(input: I, files: RecordedFiles) -> Watch<I> {
        Watch {
            input: Some(input),
            recording: Some(files),
            lines: None,
        }
    }

    /// The same, where what can't be written is told by these lines.
    pub(crate) fn telling(self, lines: Arc<Lines>) -> Watch<I> {
        let Watch {
            input,
            recording,
            lines: _none,
        } = self;
        Watch {
            input,
            recording,
            lines: Some(lines),
        }
    }

    /// Starts the thread, if there is something to do. The server listens at the address.
    pub(crate) fn start<R: System>(
        self,
        rt: R,
        address: SocketAddr,
        ender: Arc<Ender>,
    ) -> io::Result<()> {
        let Watch {
            input,
            recording,
            lines,
        } = self;
        let Some(input) = input else {
            return Ok(());
        };
        if let (Some(files), Some(lines)) = (&recording, &lines) {
            files.tell_end(&rt, lines);
        }
        let address = reached_at(address);
        let address = format!(in rt.alloc(); "{address}")?;
        let _thread = thread::spawn(
            &rt,
            move || end_with(rt, input, recording, lines, address, ender),
        )?;
        Ok(())
    }
}

// What the thread does.
fn end_with<R: System, I: Read + Drop>(
    rt: R,
    input: I,
    recording: Option<RecordedFiles>,
    lines: Option<Arc<Lines>>,
    address: String,
    ender: Arc<Ender>,
) {
    wait_for_end(&rt, input);
    // With a server that goes on nothing of a recording is lost.
    let is_kept = match &recording {
        Some(files) => files.is_written(&rt, address.as_str(), &lines),
        None => true,
    };
    if is_kept {
        ender.end();
    }
}

// A server that listens at every address is at the machine's own.
fn reached_at(address: SocketAddr) -> SocketAddr {
    let ip = match address.ip() {
        IpAddr::V4(ip) if ip.is_unspecified() => IpAddr::V4(Ipv4Addr::LOCALHOST),
        IpAddr::V6(ip) if ip.is_unspecified() => IpAddr::V6(Ipv6Addr::LOCALHOST),
        ip => ip,
    };
    SocketAddr::from((ip, address.port()))
}

// Reads on to the end. An input that can't be read has ended, too.
fn wait_for_end<R: Wait, I: Read + Drop>(rt: &R, input: I) {
    let mut input = input;
    let mut buffer = [0u8; 4096];
    for _ in rt.forever() {
        match input.read(buffer.as_mut_slice()) {
            Ok(0) => break,
            Ok(_count) => {}
            Err(error) => if error.kind() != ErrorKind::Interrupted {
                break;
            },
        }
    }
}
