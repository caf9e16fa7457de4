// The page of a server.
ghost use Rattle.std.specs.Prelude.{◌≡◌, IfErr, IfOk};
ghost use Rattle.mock.specs.Page.{IsPage};

use bytes::Bytes;
use command_output::files::{FileError, FileReader, Unread, read_file};
use command_output::status::FAILURE;
use std::alloc::Global;
use std::io;
use std::io::{ErrorKind, Write};

/// The most bytes that the file of a page may have.
const PAGE_LIMIT: usize = 1_048_576;

/// The page in the file at the path, if there is a path. The error is the exit status, with its line on `err`.
pub(crate) fn page_in<F: FileReader, E: Write>(
    alloc: Global,
    files: &F,
    path: Option<&str>,
    err: &mut E,
) -> Result<Option<Bytes>, u8>
    ensures status { IfErr result (λ status. status ≡ FAILURE) }
{
    let Some(path) = path else { return Ok(None) };
    match page_at(alloc, files, path) {
        Ok(page) => Ok(Some(page)),
        Err(error) => {
            let unread = Unread { error, file: None };
            unread.report(alloc, path, err);
            Err(FAILURE)
        }
    }
}

fn page_at<F: FileReader>(alloc: Global, files: &F, path: &str) -> Result<Bytes, FileError>
    ensures { IfOk result (IsPage (F.content files.now path.now)) }
{
    let bytes = read_file(alloc, files, path)?;
    if bytes.len() > PAGE_LIMIT {
        return Err(FileError::CannotRead(io::Error::from(ErrorKind::FileTooLarge)));
    }
    match Bytes::from_vec(bytes) {
        Ok(page) => Ok(page),
        Err(_error) => Err(FileError::OutOfMemory),
    }
}
