//! The folder of an archive: which names in it may be those of pages.
use std::alloc::{AllocError, Global};
use std::fs::{File, Metadata};
use std::io::ErrorKind;
use std::os::unix::fs::MetadataExt;
use std::rt::Files;
use std::{fs, io};

/// Checks that a path leads to a folder that is open: another may have been moved there, or mounted, or that
/// one unmounted.
pub(crate) fn expect_same<R: Files>(rt: &R, open: &File, path: &str) -> io::Result<()> {
    let (open, found) = (open.metadata()?, fs::metadata(rt, path)?);
    if found.dev() == open.dev() && found.ino() == open.ino() {
        Ok(())
    } else {
        Err(io::Error::new(
            ErrorKind::StaleNetworkFileHandle,
            "another folder is there now",
        ))
    }
}

/// Checks that nothing is at the path of a page, which would take its place; or only that page, which has
/// been moved there where that was said to have failed.
pub(crate) fn expect_none_but<R: Files>(
    rt: &R,
    alloc: Global,
    path: &str,
    page: &str,
) -> io::Result<()> {
    match fs::symlink_metadata(rt, path) {
        Ok(found) => expect_page(rt, alloc, &found, path, page),
        Err(error) if error.kind() == ErrorKind::NotFound => Ok(()),
        Err(error) => Err(error),
    }
}

// Checks that what was found at the path of a page is that page.
fn expect_page<R: Files>(
    rt: &R,
    alloc: Global,
    found: &Metadata,
    path: &str,
    page: &str,
) -> io::Result<()> {
    if found.is_file() && is_same_text(rt, alloc, path, page)? {
        Ok(())
    } else {
        Err(io::Error::from(ErrorKind::AlreadyExists))
    }
}

// Whether two files have the same octets.
fn is_same_text<R: Files>(rt: &R, alloc: Global, one: &str, other: &str) -> io::Result<bool> {
    let one = fs::read(&(rt, alloc), one)?;
    let other = fs::read(&(rt, alloc), other)?;
    Ok(one.as_slice() == other.as_slice())
}

/// Appends the names of what is in a folder and may be a page, and sorts them all.
pub(crate) fn list<R: Files>(
    rt: &R,
    alloc: Global,
    folder: &str,
    names: &mut Vec<String>,
) -> io::Result<()> {
    for entry in fs::read_dir(&(rt, alloc), folder)? {
        let entry = entry?;
        let path = entry.path().as_str();
        if !is_passed_over(rt, path) {
            push_name(alloc, path, names)?;
        }
    }
    names.sort()?;
    Ok(())
}

// Appends the name of what is at a path.
fn push_name(alloc: Global, path: &str, names: &mut Vec<String>) -> Result<(), AllocError> {
    let name = String::from_str(alloc, name_of(path))?;
    names.push(name)?;
    Ok(())
}

/// Whether what is at a path in an archive is no page, and is passed over: a page that is being written, a
/// folder that the file system has there, whose name is hidden or `lost+found`, or a file that NFS keeps
/// while it is open.
pub fn is_passed_over<R: Files>(rt: &R, path: &str) -> bool {
    let name = name_of(path);
    if name == "new" || name.starts_with(".nfs") {
        return true;
    }
    (name == "lost+found" || name.starts_with(".")) && is_folder(rt, path)
}

fn name_of(path: &str) -> &str {
    path.rsplit('/').next().unwrap_or(path)
}

// Whether there is a folder at a path, and no link to one.
fn is_folder<R: Files>(rt: &R, path: &str) -> bool {
    match fs::symlink_metadata(rt, path) {
        Ok(found) => found.is_dir(),
        Err(_) => false,
    }
}
