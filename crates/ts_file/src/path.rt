//! The disk of the file at a path.

ghost use Rattle.std.specs.Prelude.{◌≡◌, IfOk};
ghost use Rattle.ts_file.specs.FileDisk.{state_of};

use crate::FileDisk;
use std::alloc::Global;
use std::fs::{OpenFile, OpenOptions};
use std::os::unix::fs::OpenOptionsExt;
use std::path::Path;
use std::rt::Files;
use std::{fs, io};

/// The disk of the file at a path, which has to be there.
///
/// # Errors
///
/// The file can't be opened to read and write, can't be read, or is too long for the memory.
pub fn open<R: Files>(rt: &R, alloc: Global, path: &str) -> io::Result<FileDisk<R::File>>
    ensures whole { IfOk result (λ disk. (state_of disk).failures ≡ 0) }
{
    let file = OpenOptions::new().read(true).write(true).open(rt, path)?;
    FileDisk::new(alloc, file)
}

/// The disk of the file at a path, which is made where it is missing. Octets that the file holds
/// stay. The name of the file is synced. A file that is made is for its owner alone (mode 0600).
///
/// # Errors
///
/// The file can't be made or opened to read and write, its folder can't be opened or synced, or the
/// file can't be read or is too long for the memory.
pub fn create<R: Files>(rt: &R, alloc: Global, path: &str) -> io::Result<FileDisk<R::File>>
    ensures whole { IfOk result (λ disk. (state_of disk).failures ≡ 0) }
{
    let file = OpenOptions::new()
        .read(true)
        .write(true)
        .create(true)
        .mode(0o600)
        .open(rt, path)?;
    sync_folder(rt, alloc, path)?;
    FileDisk::new(alloc, file)
}

/// Syncs the folder that a file is in, which is not that of the path where that is a symbolic link.
fn sync_folder<R: Files>(rt: &R, alloc: Global, path: &str) -> io::Result<()> {
    match rt.canonicalize(alloc, path) {
        Ok(real) => fs::open(rt, folder_of(real.as_str()))?.sync_all(),
        Err(_) => fs::open(rt, folder_of(path))?.sync_all(),
    }
}

/// The folder of a path.
fn folder_of(path: &str) -> &str {
    match Path::new(path).parent() {
        Some(folder) if !folder.as_str().is_empty() => folder.as_str(),
        _ => ".",
    }
}
