//! Ids of commands.

use crate::fault::TaskFault;
use std::fs;
use std::io::Read;
use std::rt::Files;

/// Where ids are drawn from.
const RANDOM: &str = "/dev/urandom";

/// Sixteen octets that nobody else draws.
///
/// # Errors
///
/// `File` where the system gives none.
pub fn draw_id<R: Files>(rt: &R) -> Result<[u8; 16], TaskFault> {
    let mut id = [0; 16];
    let Ok(mut file) = fs::open(rt, RANDOM) else {
        return Err(TaskFault::File);
    };
    match file.read_exact(&mut id) {
        Ok(()) => Ok(id),
        Err(_) => Err(TaskFault::File),
    }
}
