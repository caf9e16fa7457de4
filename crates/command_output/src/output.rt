//! Writing to a writer of which nothing is known, with what it holds after an error.
ghost use Rattle.std.specs.Prelude.{flat_map};
ghost use Rattle.command_output.specs.Output.{Continues, Writes};

use std::io;
use std::io::{ErrorKind, Write};

/// How many interruptions of a write are followed by a retry.
const RETRIES: u32 = 100_000_000;

/// Writes the bytes. After an error the writer has a front part of them, and never all of them.
pub fn put<W: Write>(out: &mut W, bytes: &[u8]) -> io::Result<()>
    ensures { Writes result (W.contents out.old) (W.contents out.new) bytes.now }
{
    let mut rest = bytes;
    let mut retries = RETRIES;
    while !rest.is_empty() {
        match out.write(rest) {
            Ok(0) => return Err(io::Error::from(ErrorKind::WriteZero)),
            Ok(count) => rest = &rest[count..],
            Err(error) => {
                if error.kind() != ErrorKind::Interrupted || retries == 0 {
                    return Err(error);
                }
                retries -= 1;
            }
        }
    }
    Ok(())
}

/// Writes lines that follow what was written before, as far as the writer takes them.
#[tactic(auto, using(crate::proofs::PartsWritten::continued))]
pub fn put_notes<W: Write>(out: &mut W, lines: &str)
    ensures { Continues (W.contents out.old) (W.contents out.new) }
{
    // What they explain is reported already.
    let _ = put(out, lines.as_bytes());
}

/// Writes the texts, one after the other. Takes no memory.
pub fn put_all<W: Write>(out: &mut W, texts: &[&str]) -> io::Result<()>
    ensures { Writes result (W.contents out.old) (W.contents out.new) (flat_map (λ text. text.now) texts.now) }
{
    for text in texts {
        put(out, text.as_bytes())?;
    }
    Ok(())
}
