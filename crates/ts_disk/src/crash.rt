//! What a crash leaves of a disk in memory.

ghost use Rattle.std.specs.Prelude.{◌≡◌, IfOk, OnOk};
ghost use Rattle.ts_disk.specs.Crash.{written_within, torn_by, read_after, left_after, left_of};

use crate::DiskCall;
use crate::memory::overwrite;
use std::alloc::{AllocError, Global};

/// What a crash leaves of the octets that were written since the last sync: what the disk held
/// before, and its length then; what was written; or one octet everywhere.
#[derive(Clone, Copy, Debug, PartialEq, Eq)]
pub enum Torn {
    Old,
    New,
    Byte(u8),
}

/// Writes octets at an offset. An offset behind the end changes nothing.
fn write_within(image: &mut Vec<u8>, at: usize, octets: &[u8]) -> Result<(), AllocError>
    ensures { OnOk result (image.new.items ≡ written_within image.old.items at octets.now) }
{
    if image.len() < at {
        return Ok(());
    }
    overwrite(image, at, octets)
}

/// Changes what a crash leaves by a write that no sync followed: not at all, by the octets written,
/// or by one octet instead of each of them.
fn tear(
    alloc: Global,
    torn: Torn,
    image: &mut Vec<u8>,
    at: usize,
    octets: &[u8],
) -> Result<(), AllocError>
    ensures { OnOk result (image.new.items ≡ torn_by torn image.old.items at octets.now) }
{
    match torn {
        Torn::Old => Ok(()),
        Torn::New => write_within(image, at, octets),
        Torn::Byte(octet) => {
            let filled = vec![in alloc; octet; octets.len()]?;
            write_within(image, at, &filled)
        }
    }
}

/// Makes a call's change to what a read gives and to what a crash leaves. A sync makes the two
/// alike.
fn step(
    alloc: Global,
    torn: Torn,
    read: &mut Vec<u8>,
    left: &mut Vec<u8>,
    call: &DiskCall,
) -> Result<(), AllocError>
    ensures read { OnOk result (read.new.items ≡ read_after read.old.items call.now) }
    ensures left { OnOk result (left.new.items
        ≡ left_after torn read.old.items left.old.items call.now) }
{
    match call {
        DiskCall::Read => {}
        DiskCall::Write { at, octets } => {
            write_within(read, *at, octets)?;
            tear(alloc, torn, left, *at, octets)?;
        }
        DiskCall::Sync => {
            left.clear();
            left.extend_from_slice(read)?;
        }
    }
    Ok(())
}

/// The image that a crash leaves after these calls on a durable disk.
pub(crate) fn leave(
    alloc: Global,
    torn: Torn,
    first: &[u8],
    calls: &[DiskCall],
) -> Result<Vec<u8>, AllocError>
    ensures { IfOk result (λ image. image.items ≡ left_of torn first.now first.now calls.now) }
{
    let mut read = first.to_vec(alloc)?;
    let mut left = first.to_vec(alloc)?;
    for call in calls {
        step(alloc, torn, &mut read, &mut left, call)?;
    }
    Ok(left)
}
