//! The files of a node's record.

ghost use Rattle.std.specs.Prelude.{◌≤◌, IfOk, length};

use crate::fault::TaskFault;
use crate::files::{MAX_SHOWN, fault_of, read_within, second};
use crate::locking::RecordLock;
use std::alloc::Global;
use std::fs::File;
use std::rt::Files;
use ts_command::Command;
use ts_disk::Disk;
use ts_file::{FileDisk, create, open};
use ts_record::{Record, RecordFault};

/// The disk of a file that is there.
fn open_disk<R: Files + Eprint>(
    rt: &R,
    alloc: Global,
    path: &str,
) -> Result<FileDisk<R::File>, TaskFault> {
    match open(rt, alloc, path) {
        Ok(disk) => Ok(disk),
        Err(error) => Err(fault_of(rt, path, &error)),
    }
}

/// The two disks of a record that is there: the file, and the one whose name ends in `.b`.
///
/// # Errors
///
/// `File`, `Memory`.
pub fn open_disks<R: Files + Eprint>(
    rt: &R,
    alloc: Global,
    path: &str,
) -> Result<(FileDisk<R::File>, FileDisk<R::File>), TaskFault> {
    let other = second(alloc, path)?;
    let a = open_disk(rt, alloc, path)?;
    let b = open_disk(rt, alloc, other.as_str())?;
    Ok((a, b))
}

/// The octets of the two files of a record, neither of which is written. Where the second can't be
/// read it is taken for an empty one, as of a record of version 1, and standard error says why.
///
/// # Errors
///
/// Those of the first file; `TooLong` above 4 GiB; `Memory`.
pub fn read_record<R: Files + Eprint>(
    rt: &R,
    alloc: Global,
    path: &str,
) -> Result<(Vec<u8>, Vec<u8>), TaskFault>
    ensures short { IfOk result (λ files. (length files.0.items ≤ 4294967296)
        × (length files.1.items ≤ 4294967296)) }
{
    let first = read_within(rt, alloc, path, MAX_SHOWN)?;
    let other = second(alloc, path)?;
    match read_within(rt, alloc, other.as_str(), MAX_SHOWN) {
        Ok(octets) => Ok((first, octets)),
        Err(TaskFault::File) => Ok((first, Vec::new(alloc))),
        Err(fault) => Err(fault),
    }
}

/// A disk on a file that holds no octets, which is made where it is missing.
fn create_empty<R: Files + Eprint>(
    rt: &R,
    alloc: Global,
    path: &str,
) -> Result<FileDisk<R::File>, TaskFault> {
    let mut disk = match create(rt, alloc, path) {
        Ok(disk) => disk,
        Err(error) => return Err(fault_of(rt, path, &error)),
    };
    match disk.read(alloc) {
        Ok(octets) if octets.is_empty() => Ok(disk),
        Ok(_) => {
            let _ = eprintln!(rt; "trustd: {path}: holds octets, and is not written over");
            Err(TaskFault::File)
        }
        Err(fault) => Err(TaskFault::from(RecordFault::from(fault))),
    }
}

/// Makes the empty record of a node of a group, on two files that hold no octets or are missing:
/// what is there is never written over.
///
/// # Errors
///
/// `Busy` where another process holds one of them; `File`, also where a file holds octets;
/// `Memory`; `Record`.
pub fn format_files<R: Files<File = File> + Eprint>(
    rt: &R,
    alloc: Global,
    path: &str,
    node: u8,
    nodes: u8,
    group: u32,
) -> Result<(), TaskFault>
    requires from { 1 ≤ node }
    requires to { node ≤ nodes }
    requires few { nodes ≤ 9 }
{
    let other = second(alloc, path)?;
    let _lock = RecordLock::of_new_record(rt, alloc, path)?;
    let mut a = create_empty(rt, alloc, path)?;
    let mut b = create_empty(rt, alloc, other.as_str())?;
    Record::<FileDisk<File>, Command>::format(&mut a, &mut b, node, nodes, group)?;
    Ok(())
}

/// Makes a record from one of version 1, on two files that hold no octets or are missing, and
/// answers the number of its facts. The old file is not written.
///
/// # Errors
///
/// `Busy` where another process holds one of the new files; `File`, also where one of them holds
/// octets; `Memory`; `Record`.
pub fn migrate_files<R: Files<File = File> + Eprint>(
    rt: &R,
    alloc: Global,
    old: &str,
    new: &str,
) -> Result<u32, TaskFault> {
    let mut old = match open(rt, alloc, old) {
        Ok(disk) => disk,
        Err(error) => return Err(fault_of(rt, old, &error)),
    };
    let other = second(alloc, new)?;
    let _lock = RecordLock::of_new_record(rt, alloc, new)?;
    let mut a = create_empty(rt, alloc, new)?;
    let mut b = create_empty(rt, alloc, other.as_str())?;
    let facts = Record::<FileDisk<File>, Command>::migrate(alloc, &mut old, &mut a, &mut b)?;
    Ok(facts)
}
