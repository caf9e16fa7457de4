//! The files that a command reads.
ghost use Rattle.std.specs.Prelude.{◌≡◌, ◌⊎◌, ◌∷◌, ◌++◌, [], Contains, IfOk, IfErr, IfSome, List};
ghost use Rattle.std.specs.Prelude.{OnOk, ℕ, map, string_bytes};
ghost use Rattle.std.specs.List.{AllZip};
ghost use Rattle.command_output.specs.Files.{AreDocuments, IsDocumentsError, IsFile, IsFileError};
ghost use Rattle.command_output.specs.declared.files.FileError.TheVariants.{OutOfMemory as NoMemory};

use crate::error::CommandError;
use crate::output::{put_all, put_notes};
use error_code::error_code::ErrorCode;
use std::alloc::{AllocError, Global};
use std::fs::File;
use std::io::{ErrorKind, Read, Write};
use std::path::AsPath;
use std::{fs, io};

/// The most bytes that a file may have.
pub const FILE_LIMIT: u64 = 16_777_216;

/// Where the files of a command are: the file system, or what a case program has in its place.
pub trait FileReader {
    ghost use Rattle.std.specs.Prelude.{◌≡◌, List, ℕ, Option, None, IfOk, IfErr, IfSome, map, take};
    ghost use Rattle.std.specs.Prelude.{string_bytes};
    ghost use Rattle.std.specs.IoError.{error_kind};

    // The bytes of the file at a path, where they are known.
    ghost content: { Self → List ℕ → Option (List ℕ) } = { λ _ _. None };

    // The files that a path names, where they are known.
    ghost listed: { Self → List ℕ → Option (List (List ℕ)) } = { λ _ _. None };

    /// The first bytes of the file at the path, at most so many.
    fn read_at_most(&self, alloc: Global, path: &str, limit: u64) -> io::Result<Vec<u8>>
        ensures front { IfOk result
            (λ front. IfSome (content self.now path.now) (λ all. front.items ≡ take limit all)) }
        ensures error { IfErr result (λ error. IfSome (content self.now path.now)
            (λ _. error_kind error ≡ ErrorKind.OutOfMemory)) };

    /// The files that a path names: itself; or, of a folder, the regular files in it whose names end in `.json` and
    /// don't begin with a dot, in byte order.
    fn files_at(&self, alloc: Global, path: &str) -> io::Result<Listed>
        ensures all { IfOk result
            (λ found. IfSome (listed self.now path.now) (λ all. map string_bytes found.files.items ≡ all)) }
        ensures error { IfErr result (λ error. IfSome (listed self.now path.now)
            (λ _. error_kind error ≡ ErrorKind.OutOfMemory)) };
}

impl FileReader for HostRuntime {
    fn read_at_most(&self, alloc: Global, path: &str, limit: u64) -> io::Result<Vec<u8>> {
        let mut front = Vec::new(alloc);
        File::open(self, path)?.take(limit).read_to_end(&mut front)?;
        Ok(front)
    }

    fn files_at(&self, alloc: Global, path: &str) -> io::Result<Listed> {
        if is_folder(self, path) {
            return files_in(self, alloc, path);
        }
        let mut found = Listed::new(alloc);
        found.files.push(String::from_str(alloc, path)?)?;
        Ok(found)
    }
}

/// The files that a path names.
#[derive(Debug, Drop)]
pub struct Listed {
    pub files: Vec<String>,
    /// Lines that name what is passed over in a folder, and say why.
    pub passed_over: String,
}

impl Listed {
    fn new(alloc: Global) -> Listed {
        Listed {
            files: Vec::new(alloc),
            passed_over: String::new(alloc),
        }
    }
}

// A link to a folder is one, too.
fn is_folder(rt: &HostRuntime, path: &str) -> bool {
    match fs::metadata(rt, path) {
        Ok(metadata) => metadata.is_dir(),
        Err(_error) => false,
    }
}

fn files_in(rt: &HostRuntime, alloc: Global, folder: &str) -> io::Result<Listed> {
    let mut files: Vec<String> = Vec::new(alloc);
    let mut passed_over: Vec<String> = Vec::new(alloc);
    for entry in fs::read_dir(rt, folder)? {
        match entry {
            Ok(entry) if is_of_mappings(entry.file_name()) => {
                let path = String::from_str(alloc, entry.path().path_text())?;
                match passed_over_for(rt, alloc, path.as_str())? {
                    Some(line) => passed_over.push(line)?,
                    None => files.push(path)?,
                }
            }
            Ok(entry) if entry.file_name() == "mappings" => {
                if is_folder(rt, entry.path().path_text()) {
                    let line = line_on(alloc, entry.path().path_text(), MAPPINGS_FOLDER)?;
                    passed_over.push(line)?;
                }
            }
            Ok(_entry) => {}
            Err(error) if error.kind() == ErrorKind::InvalidFilename => {
                passed_over.push(line_of_unreadable_name(alloc, folder)?)?;
            }
            Err(error) => return Err(error),
        }
    }
    files.sort()?;
    passed_over.sort()?;
    Ok(Listed {
        files,
        passed_over: joined(alloc, passed_over.as_slice())?,
    })
}

// WireMock has its files there, in the folder that it is given.
const MAPPINGS_FOLDER: &str = "it is a folder; give its own path to have the files in it read";

// A name that begins with a dot is hidden, as an editor's copy is.
fn is_of_mappings(name: &str) -> bool {
    name.ends_with(".json") && !name.starts_with('.')
}

// The line on what can't be read as a file, if it can't: it is no regular file, or a link to nothing.
fn passed_over_for(
    rt: &HostRuntime,
    alloc: Global,
    path: &str,
) -> Result<Option<String>, AllocError> {
    match fs::metadata(rt, path) {
        Ok(metadata) if metadata.is_file() => Ok(None),
        Ok(_metadata) => Ok(Some(line_on(alloc, path, "it is no regular file")?)),
        Err(error) => {
            let reason = error.to_string(alloc)?;
            Ok(Some(line_on(alloc, path, reason.as_str())?))
        }
    }
}

fn line_of_unreadable_name(alloc: Global, folder: &str) -> Result<String, AllocError> {
    joined_texts(
        alloc,
        [
            "warning: in ",
            folder,
            " a file is passed over: its name isn't UTF-8\n",
        ]
        .as_slice(),
    )
}

fn line_on(alloc: Global, path: &str, why: &str) -> Result<String, AllocError> {
    joined_texts(
        alloc,
        ["warning: ", path, " is passed over: ", why, "\n"].as_slice(),
    )
}

fn joined_texts(alloc: Global, texts: &[&str]) -> Result<String, AllocError> {
    let mut all = String::new(alloc);
    for text in texts {
        all.push_str(*text)?;
    }
    Ok(all)
}

fn joined(alloc: Global, lines: &[String]) -> Result<String, AllocError> {
    let mut all = String::new(alloc);
    for line in lines {
        all.push_str(line.as_str())?;
    }
    Ok(all)
}

/// Why no file is read.
#[derive(Clone, Copy, Debug)]
pub enum FileError {
    /// It can't be read, or is over the limit; and why.
    CannotRead(io::Error),
    OutOfMemory,
}

impl FileError {
    ghost use Rattle.command_output.specs.Files.{file_error_line};
    ghost use Rattle.command_output.specs.Output.{AppendsFront, Writes};

    /// Writes its line, as far as the writer takes it. Takes no memory.
    pub fn report<W: Write>(self, path: &str, err: &mut W)
        ensures { AppendsFront (W.contents err.old) (W.contents err.new) (file_error_line path.now self) }
    {
        // The caller's exit status is 1 in any case.
        let _ = self.write_to(path, err);
    }

    fn write_to<W: Write>(self, path: &str, out: &mut W) -> io::Result<()>
        ensures { Writes result (W.contents out.old) (W.contents out.new) (file_error_line path.now self) }
    {
        match self {
            FileError::CannotRead(_reason) => put_all(
                out,
                ["error: cannot read ", path, "\n"].as_slice(),
            ),
            FileError::OutOfMemory => CommandError::from(ErrorCode::OutOfMemory).write_to(out),
        }
    }
}

/// An error of the system in words, on a line that follows the error's own.
pub fn reason_line(alloc: Global, error: &io::Error) -> String {
    match format!(in alloc; "  {error}\n") {
        Ok(line) => line,
        Err(_out_of_memory) => String::new(alloc),
    }
}

/// The file at the path, whole.
pub fn read_file<F: FileReader>(alloc: Global, files: &F, path: &str) -> Result<Vec<u8>, FileError>
    ensures ok { IfOk result (λ bytes. IsFile (F.content files.now path.now) bytes.items) }
    ensures err { IfErr result (IsFileError (F.content files.now path.now)) }
{
    match files.read_at_most(alloc, path, FILE_LIMIT + 1) {
        Ok(bytes) => {
            if bytes.len() as u64 <= FILE_LIMIT {
                Ok(bytes)
            } else {
                Err(FileError::CannotRead(io::Error::from(ErrorKind::FileTooLarge)))
            }
        }
        Err(error) => Err(match error.kind() {
            ErrorKind::OutOfMemory => FileError::OutOfMemory,
            _ => FileError::CannotRead(error),
        }),
    }
}

/// The documents that a path names: that of a file, or those of the files of a folder.
#[derive(Debug, Drop)]
pub struct Documents {
    pub paths: Vec<String>,
    /// The bytes of each.
    pub texts: Vec<Vec<u8>>,
    /// Lines that name what was passed over in a folder, and say why.
    pub passed_over: String,
}

/// Why documents aren't read, and at which file of a folder.
#[derive(Debug, Drop)]
pub struct Unread {
    pub error: FileError,
    pub file: Option<String>,
}

impl Unread {
    ghost use Rattle.command_output.specs.Files.{file_error_line};
    ghost use Rattle.command_output.specs.Output.{AppendsFront, Followed};

    /// Writes the line of the error, and on a line of its own the system's reason, as far as there is memory and the
    /// writer takes it.
    pub fn report<W: Write>(&self, alloc: Global, path: &str, err: &mut W)
        ensures { Followed W.contents
            (λ e. AppendsFront (W.contents err.old) (W.contents e) (file_error_line path.now self.now.error)) err.new }
    {
        self.error.report(path, err);
        put_notes(err, self.reason(alloc).as_str());
    }

    fn reason(&self, alloc: Global) -> String {
        match (&self.error, &self.file) {
            (FileError::CannotRead(reason), None) => reason_line(alloc, reason),
            (FileError::CannotRead(reason), Some(file)) => line_of(alloc, file.as_str(), reason),
            (FileError::OutOfMemory, _) => String::new(alloc),
        }
    }
}

fn line_of(alloc: Global, file: &str, reason: &io::Error) -> String {
    match format!(in alloc; "  {file}: {reason}\n") {
        Ok(line) => line,
        Err(_out_of_memory) => String::new(alloc),
    }
}

/// The documents that a path names, whole.
pub fn read_documents<F: FileReader>(
    alloc: Global,
    files: &F,
    path: &str,
) -> Result<Documents, Unread>
    ensures ok { IfOk result (λ found. AreDocuments (F.listed files.now path.now) (F.content files.now)
        (map (λ text. text.items) found.texts.items)) }
    ensures err { IfErr result
        (λ unread. IsDocumentsError (F.listed files.now path.now) (F.content files.now) unread.error) }
{
    match list_files(alloc, files, path) {
        Ok(found) => read_listed(alloc, files, path, found),
        Err(error) => Err(Unread { error, file: None }),
    }
}

fn list_files<F: FileReader>(alloc: Global, files: &F, path: &str) -> Result<Listed, FileError>
    ensures ok { IfOk result
        (λ found. IfSome (F.listed files.now path.now) (λ all. map string_bytes found.files.items ≡ all)) }
    ensures err { IfErr result (IsDocumentsError (F.listed files.now path.now) (F.content files.now)) }
{
    match files.files_at(alloc, path) {
        Ok(found) => Ok(found),
        Err(error) => Err(match error.kind() {
            ErrorKind::OutOfMemory => FileError::OutOfMemory,
            _ => FileError::CannotRead(error),
        }),
    }
}

fn read_listed<F: FileReader>(
    alloc: Global,
    files: &F,
    path: &str,
    found: Listed,
) -> Result<Documents, Unread>
    requires { IfSome (F.listed files.now path.now) (λ all. map string_bytes found.files.items ≡ all) }
    ensures ok { IfOk result (λ found. AreDocuments (F.listed files.now path.now) (F.content files.now)
        (map (λ text. text.items) found.texts.items)) }
    ensures err { IfErr result
        (λ unread. IsDocumentsError (F.listed files.now path.now) (F.content files.now) unread.error) }
{
    let Listed {
        files: paths,
        passed_over,
    } = found;
    match read_each(alloc, files, paths.as_slice()) {
        Ok(texts) => Ok(Documents {
            paths,
            texts,
            passed_over,
        }),
        Err((error, file)) => Err(Unread {
            error,
            file: if file.as_str() == path {
                None
            } else {
                Some(file)
            },
        }),
    }
}

/// The bytes of each file, or the error of the first that can't be read, with its path.
fn read_each<F: FileReader>(
    alloc: Global,
    files: &F,
    paths: &[String],
) -> Result<Vec<Vec<u8>>, (FileError, String)>
    ensures ok { IfOk result (λ texts. AllZip (λ path bytes. IsFile (F.content files.now path) bytes)
        (map string_bytes paths.now) (map (λ text. text.items) texts.items)) }
    ensures err { IfErr result (λ failed. (failed.0 ≡ NoMemory)
        ⊎ ((path : List ℕ) × Contains (map string_bytes paths.now) path
        × IsFileError (F.content files.now path) failed.0)) }
{
    let mut texts = Vec::new(alloc);
    for path in paths {
        match read_file(alloc, files, path.as_str()) {
            Ok(text) => push(alloc, &mut texts, text)?,
            Err(error) => return Err((error, path_or_none(alloc, path.as_str()))),
        }
    }
    Ok(texts)
}

fn push(alloc: Global, texts: &mut Vec<Vec<u8>>, text: Vec<u8>) -> Result<(), (FileError, String)>
    ensures ok { OnOk result (texts.new.items ≡ texts.old.items ++ text ∷ []) }
    ensures err { IfErr result (λ failed. failed.0 ≡ NoMemory) }
{
    match texts.push(text) {
        Ok(()) => Ok(()),
        Err(_out_of_memory) => Err((FileError::OutOfMemory, String::new(alloc))),
    }
}

fn path_or_none(alloc: Global, path: &str) -> String {
    match String::from_str(alloc, path) {
        Ok(path) => path,
        Err(_out_of_memory) => String::new(alloc),
    }
}
