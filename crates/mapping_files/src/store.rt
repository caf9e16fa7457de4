// A file that is written whole or not at all: a new file beside it, which is synced and then renamed.
use std::alloc::Global;
use std::fs::{File, Files, OpenFile};
use std::io::{Error, ErrorKind, Write};
use std::random::RandomSource;
use std::{fs, io};

/// Writes the bytes to a new file beside the path, and then renames it to the path. At an error the new file is removed.
/// A link stays: the file that it leads to is written.
pub(crate) fn store_over<R: Files + RandomSource>(
    rt: &R,
    alloc: Global,
    path: &str,
    bytes: &[u8],
) -> io::Result<()> {
    let place = place_of(rt, alloc, path)?;
    let new = new_path(rt, alloc, place.as_str())?;
    let stored = write_new(rt, new.as_str(), place.as_str(), bytes);
    if stored.is_err() {
        // It may not be there.
        let _ = fs::remove_file(rt, new.as_str());
        return stored;
    }
    sync_folder(rt, place.as_str());
    Ok(())
}

/// Whether a new file can be made there, and take its place. It is removed at once.
pub(crate) fn check_over<R: Files + RandomSource>(
    rt: &R,
    alloc: Global,
    path: &str,
) -> io::Result<()> {
    let new = new_path(rt, alloc, place_of(rt, alloc, path)?.as_str())?;
    let file = File::create_new(rt, new.as_str())?;
    drop(file);
    fs::remove_file(rt, new.as_str())
}

// The path, or where a link there leads to. It is an error where something is there that a file can't take the place of.
fn place_of<R: Files>(rt: &R, alloc: Global, path: &str) -> io::Result<String> {
    let place = match rt.canonicalize(alloc, path) {
        Ok(file) => file.into_string(),
        Err(_error) => String::from_str(alloc, path)?,
    };
    if is_no_file(rt, place.as_str()) {
        return Err(Error::new(ErrorKind::InvalidInput, "it is no regular file"));
    }
    Ok(place)
}

// Something is there, as a folder or a device, that a file can't take the place of.
fn is_no_file<R: Files>(rt: &R, path: &str) -> bool {
    match fs::metadata(rt, path) {
        Ok(metadata) => !metadata.is_file(),
        Err(_error) => false,
    }
}

// A name that no other file has, and that isn't read as one of mappings: it doesn't end in `.json`.
fn new_path<R: RandomSource>(rt: &R, alloc: Global, path: &str) -> io::Result<String> {
    let mut bytes = [0u8; 8];
    rt.fill_bytes(bytes.as_mut_slice())?;
    let number = u64::from_le_bytes(bytes);
    Ok(format!(in alloc; "{path}.{number}.new")?)
}

fn write_new<R: Files>(rt: &R, new: &str, path: &str, bytes: &[u8]) -> io::Result<()> {
    let mut file = File::create_new(rt, new)?;
    if let Ok(metadata) = fs::metadata(rt, path) {
        file.set_permissions(metadata.permissions())?;
    }
    file.write_all(bytes)?;
    file.sync_all()?;
    drop(file);
    fs::rename(rt, new, path)
}

// So that the name stays with the new file when the machine stops. Some file systems can't do that, and the file is
// whole in any case.
fn sync_folder<R: Files>(rt: &R, path: &str) {
    if let Ok(folder) = File::open(rt, folder_of(path)) {
        let _ = folder.sync_all();
    }
}

fn folder_of(path: &str) -> &str {
    match path.rsplit_once('/') {
        Some(("", _name)) => "/",
        Some((folder, _name)) => folder,
        None => ".",
    }
}
