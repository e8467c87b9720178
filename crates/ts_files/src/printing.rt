//! Standard output.

use crate::fault::TaskFault;
use std::io;
use std::io::{ErrorKind, Print, Write};

/// Why standard output took nothing: `Closed` where nobody reads it any more, else `Write`.
pub fn output_fault(error: io::Error) -> TaskFault {
    match error.kind() {
        ErrorKind::BrokenPipe => TaskFault::Closed,
        _ => TaskFault::Write,
    }
}

/// Writes octets to standard output.
///
/// # Errors
///
/// Those of [`output_fault`].
pub fn put(rt: &impl Print, octets: &[u8]) -> Result<(), TaskFault> {
    io::writer(rt).write_all(octets).map_err(output_fault)
}

/// Prints a text.
///
/// # Errors
///
/// Those of [`output_fault`].
pub fn say(rt: &impl Print, line: &str) -> Result<(), TaskFault> {
    print!(rt; "{line}").map_err(output_fault)
}
