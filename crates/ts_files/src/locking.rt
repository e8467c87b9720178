//! One process a record.

use crate::fault::TaskFault;
use crate::files::{fault_of, second};
use std::alloc::Global;
use std::fs::{File, OpenOptions, TryLockError};
use std::os::unix::fs::OpenOptionsExt;
use std::rt::Files;

/// The two files of a record, locked against every other process that locks them so, for as long as
/// this is kept. The locks go with the process, however it ends.
#[derive(Drop)]
pub struct RecordLock {
    file: File,
    other: File,
}

/// A file that is there, or is made, and is locked.
fn locked_file<R: Files<File = File> + Eprint>(
    rt: &R,
    path: &str,
    is_made: bool,
) -> Result<File, TaskFault> {
    let opened = OpenOptions::new()
        .read(true)
        .write(true)
        .create(is_made)
        .mode(0o600)
        .open(rt, path);
    let file = match opened {
        Ok(file) => file,
        Err(error) => return Err(fault_of(rt, path, &error)),
    };
    match file.try_lock() {
        Ok(()) => Ok(file),
        Err(TryLockError::WouldBlock) => {
            let _ = eprintln!(rt; "trustd: {path}: another process serves this record");
            Err(TaskFault::Busy)
        }
        Err(TryLockError::Error(error)) => Err(fault_of(rt, path, &error)),
    }
}

impl RecordLock {
    /// Locks the two files of a record, which are there.
    ///
    /// # Errors
    ///
    /// `Busy` where another process holds the record; `File`, `Memory`.
    pub fn of_record<R: Files<File = File> + Eprint>(
        rt: &R,
        alloc: Global,
        path: &str,
    ) -> Result<RecordLock, TaskFault> {
        RecordLock::take(rt, alloc, path, false)
    }

    /// Locks the two files of a record that is to be made. Files that are missing are made, without
    /// octets.
    ///
    /// # Errors
    ///
    /// `Busy` where another process holds the record; `File`, `Memory`.
    pub fn of_new_record<R: Files<File = File> + Eprint>(
        rt: &R,
        alloc: Global,
        path: &str,
    ) -> Result<RecordLock, TaskFault> {
        RecordLock::take(rt, alloc, path, true)
    }

    /// Locks the two files of a record. Missing files are made where `is_made` is true.
    fn take<R: Files<File = File> + Eprint>(
        rt: &R,
        alloc: Global,
        path: &str,
        is_made: bool,
    ) -> Result<RecordLock, TaskFault> {
        let second = second(alloc, path)?;
        let file = locked_file(rt, path, is_made)?;
        let other = locked_file(rt, second.as_str(), is_made)?;
        Ok(RecordLock { file, other })
    }
}
