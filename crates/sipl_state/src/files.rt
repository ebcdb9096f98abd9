//! Files that are replaced as a whole, or appended to.
use std::alloc::{AllocError, Global};
use std::fs::{File, OpenOptions};
use std::io::{ErrorKind, Write};
use std::os::unix::fs::{MetadataExt, OpenOptionsExt};
use std::rt::Files;
use std::{fs, io};

/// Opens a file to append to, which is made where there is none.
pub(crate) fn open_to_append<R: Files<File = File>>(rt: &R, path: &str) -> io::Result<File> {
    OpenOptions::new()
        .append(true)
        .create(true)
        .mode(0o600)
        .open(rt, path)
}

/// Makes the file that is to take the place of another one, and syncs it.
pub(crate) fn write_new<R: Files<File = File>>(
    rt: &R,
    alloc: Global,
    path: &str,
    text: &[u8],
) -> io::Result<()> {
    write_file(rt, new_path(alloc, path)?.as_str(), text)
}

/// Renames that file to its place: at any time either the old one or the new one is there.
pub(crate) fn take_place<R: Files<File = File>>(
    rt: &R,
    alloc: Global,
    path: &str,
) -> io::Result<()> {
    fs::rename(rt, new_path(alloc, path)?.as_str(), path)?;
    sync_folder(rt, path)
}

/// The path of the file that is to take the place of another one.
pub(crate) fn new_path(alloc: Global, path: &str) -> Result<String, AllocError> {
    format!(in alloc; "{path}.new")
}

/// Removes the file that was to take the place of another one, where it does not: it would take the space of
/// what comes next.
pub(crate) fn remove_new<R: Files<File = File>>(rt: &R, alloc: Global, path: &str) {
    if let Ok(path) = new_path(alloc, path) {
        let _ = fs::remove_file(rt, path.as_str());
    }
}

/// Makes a file of a text, and syncs it. Where that fails there is no part of it.
pub(crate) fn write_file<R: Files<File = File>>(rt: &R, path: &str, text: &[u8]) -> io::Result<()> {
    let file = OpenOptions::new()
        .write(true)
        .create(true)
        .truncate(true)
        .mode(0o600)
        .open(rt, path)?;
    let written = write_synced(file, text);
    if written.is_err() {
        let _ = fs::remove_file(rt, path);
    }
    written
}

fn write_synced(file: File, text: &[u8]) -> io::Result<()> {
    let mut file = file;
    file.write_all(text)?;
    file.sync_all()
}

/// Syncs the folder of a path.
pub(crate) fn sync_folder<R: Files<File = File>>(rt: &R, path: &str) -> io::Result<()> {
    let folder = match path.rfind('/') {
        Some(0) => "/",
        Some(end) => &path[..end],
        None => ".",
    };
    File::open(rt, folder)?.sync_all()
}

/// Checks that a path leads to a file that is open, and not to another one.
pub(crate) fn expect_same<R: Files<File = File>>(
    rt: &R,
    open: &File,
    path: &str,
) -> io::Result<()> {
    let (open, found) = (open.metadata()?, fs::metadata(rt, path)?);
    if found.dev() == open.dev() && found.ino() == open.ino() {
        Ok(())
    } else {
        Err(io::Error::new(
            ErrorKind::StaleNetworkFileHandle,
            "its lock is another file now",
        ))
    }
}

/// Where a file is: where the path is a symbolic link, that to which it leads.
pub fn real_path<R: Files<File = File>>(rt: &R, alloc: Global, path: &str) -> io::Result<String> {
    match fs::symlink_metadata(rt, path) {
        Ok(found) if found.file_type().is_symlink() => {
            Ok(fs::canonicalize(&(rt, alloc), path)?.into_string())
        }
        _ => Ok(String::from_str(alloc, path)?),
    }
}

/// Cuts a file off after so many octets where it is, which needs no space on the disk, and syncs it.
pub(crate) fn truncate<R: Files<File = File>>(rt: &R, path: &str, len: u64) -> io::Result<()> {
    let file = OpenOptions::new().write(true).open(rt, path)?;
    file.set_len(len)?;
    file.sync_all()
}

/// The octets of a file, if there is one.
pub(crate) fn read_file<R: Files<File = File>>(
    rt: &R,
    alloc: Global,
    path: &str,
) -> io::Result<Option<Vec<u8>>> {
    match fs::read(&(rt, alloc), path) {
        Ok(octets) => Ok(Some(octets)),
        Err(error) if error.kind() == ErrorKind::NotFound => Ok(None),
        Err(error) => Err(error),
    }
}
