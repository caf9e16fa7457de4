//! Interim replies, which an upstream may send before the reply itself (RFC 9110, section 15.2).
/// The most interim replies of an exchange.
pub const INTERIM_LIMIT: u64 = 64;

/// What begins the line of a status (RFC 9112, section 4).
const PROTOCOL: &[u8] = b"HTTP/";

/// The column of the first digit of a status.
const CLASS_COLUMN: usize = 9;

/// Counts the interim replies in the bytes that an upstream sends, up to the reply itself.
#[derive(Clone, Copy, Debug, Drop)]
pub struct InterimReplies {
    count: u64,
    line: Line,
}

// Where the bytes are that came.
#[derive(Clone, Copy, Debug, PartialEq, Eq)]
enum Line {
    // In a line that may be that of a status, at this column.
    Status(usize),
    // In another line.
    Other,
    // After the class of the reply itself: nothing more is counted.
    Reply,
}

impl InterimReplies {
    /// Before the first byte.
    pub fn none() -> InterimReplies {
        InterimReplies {
            count: 0,
            line: Line::Status(0),
        }
    }

    /// Whether there were more than an exchange may have.
    pub fn are_too_many(&self) -> bool {
        self.count > INTERIM_LIMIT
    }

    /// Takes bytes that came.
    pub fn take(&mut self, bytes: &[u8]) {
        for byte in bytes {
            if self.line == Line::Reply {
                return;
            }
            self.take_byte(*byte);
        }
    }

    fn take_byte(&mut self, byte: u8) {
        self.line = match self.line {
            _ if byte == b'\n' => Line::Status(0),
            Line::Status(CLASS_COLUMN) if byte == b'1' => {
                self.count = self.count.saturating_add(1);
                Line::Other
            }
            Line::Status(CLASS_COLUMN) => Line::Reply,
            Line::Status(column) if may_be(column, byte) => Line::Status(column.saturating_add(1)),
            Line::Status(_) | Line::Other => Line::Other,
            Line::Reply => Line::Reply,
        };
    }
}

// Whether the line of a status may have that byte at that column.
fn may_be(column: usize, byte: u8) -> bool {
    match PROTOCOL.get(column) {
        Some(wanted) => *wanted == byte,
        None => true,
    }
}
