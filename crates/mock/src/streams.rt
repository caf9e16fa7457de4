// The standard streams of the process, as the program writes to them.
ghost use Rattle.std.specs.Prelude.{◌≡◌};

use std::io::Write;
use std::{io, str};

/// Standard output, with the first reason why it didn't take something.
#[derive(Drop)]
pub(crate) struct Output<W> {
    stream: W,
    failure: Option<io::Error>,
}

impl<W> Output<W> {
    pub(crate) fn new(stream: W) -> Output<W> {
        Output {
            stream,
            failure: None,
        }
    }

    pub(crate) fn failure(&self) -> Option<io::Error>
        ensures { result ≡ self.now.failure }
    {
        self.failure
    }

    fn remember<T>(&mut self, done: &io::Result<T>)
        ensures { self.new.stream ≡ self.old.stream }
    {
        if let Err(error) = done
            && self.failure.is_none()
        {
            self.failure = Some(*error);
        }
    }
}

impl<W: Write> Write for Output<W> {
    ghost contents = { λ output. W.contents output.stream };

    fn write(&mut self, bytes: &[u8]) -> io::Result<usize> {
        let result = self.stream.write(bytes);
        self.remember(&result);
        result
    }

    fn flush(&mut self) -> io::Result<()> {
        let result = self.stream.flush();
        self.remember(&result);
        result
    }
}

/// Standard error, where each character is seen: a control character, a mark of the direction of a text and others that
/// aren't printed are escaped as in Rust's `char::escape_debug`, so that no text of a request or of a file moves the
/// cursor of a terminal or hides what is beside it. Line feeds stay.
#[derive(Drop)]
pub(crate) struct Visible<W> {
    stream: W,
}

impl<W> Visible<W> {
    pub(crate) fn new(stream: W) -> Visible<W> {
        Visible { stream }
    }
}

impl<W: Write> Write for Visible<W> {
    fn write(&mut self, bytes: &[u8]) -> io::Result<usize> {
        match str::from_utf8(bytes) {
            Ok(text) => write_text(&mut self.stream, text)?,
            // The lines are texts. What isn't one is written as it is.
            Err(_error) => self.stream.write_all(bytes)?,
        }
        Ok(bytes.len())
    }

    fn flush(&mut self) -> io::Result<()> {
        self.stream.flush()
    }
}

// What can be seen is written in one piece up to the next character that can't.
fn write_text<W: Write>(stream: &mut W, text: &str) -> io::Result<()> {
    for piece in text.split_inclusive(is_hidden) {
        write_piece(stream, piece)?;
    }
    Ok(())
}

// Writes a text of which the last character alone may be hidden.
fn write_piece<W: Write>(stream: &mut W, piece: &str) -> io::Result<()> {
    match (piece.strip_suffix(is_hidden), piece.chars().next_back()) {
        (Some(seen), Some(hidden)) => {
            stream.write_all(seen.as_bytes())?;
            write!(stream, "{}", hidden.escape_debug())
        }
        _ => stream.write_all(piece.as_bytes()),
    }
}

fn is_hidden(character: char) -> bool {
    match character {
        '\n' | ' '..='~' => false,
        _ => character.escape_debug().count() > 1,
    }
}
