//! Files.

ghost use Rattle.std.specs.Prelude.{◌≤◌, IfOk, IfSome, length};

use crate::fault::TaskFault;
use std::alloc::Global;
use std::io::{Error, ErrorKind, Read};
use std::rt::Files;
use std::{fs, io};

/// The most octets that are read of a file that holds a certificate, a list, a command or a
/// question: as many as a frame may have.
pub const MAX_LENGTH: u64 = 8_388_608;

/// The most octets that are read of a table of signatures.
pub const MAX_TABLE: u64 = 268_435_456;

/// The most octets that are read of a file that is shown, which may be a record.
pub const MAX_SHOWN: u64 = 4_294_967_296;

/// Says on standard error what the system says of a file, and gives the fault.
pub fn fault_of(rt: &impl Eprint, path: &str, error: &Error) -> TaskFault {
    if error.kind() == ErrorKind::OutOfMemory {
        return TaskFault::Memory;
    }
    let _ = eprintln!(rt; "trustd: {path}: {error}");
    TaskFault::File
}

/// All octets of a file, without a word on standard error. `None` where there are more than `most`.
///
/// # Errors
///
/// What the system says of the file.
pub fn read_at_most<R: Files>(
    rt: &R,
    alloc: Global,
    path: &str,
    most: u64,
) -> io::Result<Option<Vec<u8>>>
    ensures { IfOk result (λ read. IfSome read (λ octets. length octets.items ≤ most)) }
{
    let file = fs::open(rt, path)?;
    let mut octets = Vec::new(alloc);
    file.take(most.saturating_add(1)).read_to_end(&mut octets)?;
    if octets.len() as u64 > most {
        return Ok(None);
    }
    Ok(Some(octets))
}

/// All octets of a file, if there are no more than `most`.
///
/// # Errors
///
/// `TooLong` for more; `File`, `Memory`. Standard error says which file it is.
pub fn read_within<R: Files + Eprint>(
    rt: &R,
    alloc: Global,
    path: &str,
    most: u64,
) -> Result<Vec<u8>, TaskFault>
    ensures short { IfOk result (λ octets. length octets.items ≤ most) }
{
    match read_at_most(rt, alloc, path, most) {
        Ok(Some(octets)) => Ok(octets),
        Ok(None) => {
            let _ = eprintln!(rt; "trustd: {path}: holds more than {most} octets");
            Err(TaskFault::TooLong)
        }
        Err(error) => Err(fault_of(rt, path, &error)),
    }
}

/// The octets of a file, if they are no more than a frame may have.
///
/// # Errors
///
/// `TooLong` for more; `File`, `Memory`.
pub fn read_file<R: Files + Eprint>(rt: &R, alloc: Global, path: &str) -> Result<Vec<u8>, TaskFault>
    ensures short { IfOk result (λ octets. length octets.items ≤ 8388608) }
{
    read_within(rt, alloc, path, MAX_LENGTH)
}

/// The name of a record's second file.
pub fn second(alloc: Global, path: &str) -> Result<String, TaskFault> {
    Ok(format!(in alloc; "{path}.b")?)
}
