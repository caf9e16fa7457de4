// What is wrong, and where.
use crate::pointer::pointer_under;
use crate::shown::{joined, shown};
use itoa::Buffer;
use serde_json::Value;
use std::alloc::{AllocError, Global};

/// What is wrong with a value, and the JSON pointer (RFC 6901) to it from the value that was looked through.
#[derive(Drop)]
pub(crate) struct Fault {
    pub(crate) pointer: String,
    pub(crate) said: String,
}

/// The first fault of a value, if it has one.
pub(crate) type Found = Result<Option<Fault>, AllocError>;

impl Fault {
    /// The value itself isn't what was wanted.
    pub(crate) fn of(alloc: Global, wanted: &str, found: &Value) -> Result<Fault, AllocError> {
        let found = shown(alloc, found)?;
        let said = said_of(alloc, wanted, found.as_str())?;
        Ok(Fault::saying(alloc, said))
    }

    pub(crate) fn saying(alloc: Global, said: String) -> Fault {
        Fault {
            pointer: String::new(alloc),
            said,
        }
    }

    /// The same fault, of the object that has the value at that name.
    pub(crate) fn under(self, alloc: Global, name: &str) -> Result<Fault, AllocError> {
        let Fault { pointer, said } = self;
        let pointer = pointer_under(alloc, name, pointer.as_str())?;
        Ok(Fault { pointer, said })
    }

    /// The same fault, of the list that has the value at that index.
    pub(crate) fn under_index(self, alloc: Global, index: usize) -> Result<Fault, AllocError> {
        let mut digits = Buffer::new();
        self.under(alloc, digits.format(index))
    }
}

/// What was wanted, and what was found, as it is shown.
pub(crate) fn said_of(alloc: Global, wanted: &str, found: &str) -> Result<String, AllocError> {
    joined(alloc, ["wanted ", wanted, ", found ", found].as_slice())
}
