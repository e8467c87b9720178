//! What a call of a record answers in place of a value.

ghost use Rattle.std.specs.Prelude.{◌≡◌};
ghost use Rattle.ts_record.specs.declared.fault.RecordFault.TheVariants.{Memory};
ghost use Rattle.ts_record.specs.Faults.{fault_of};

use std::alloc::{AllocError, AllocFailed};
use ts_disk::DiskFault;

/// What a call of a record answers in place of a value.
#[derive(Clone, Copy, Debug, PartialEq, Eq)]
pub enum RecordFault {
    /// An allocation was refused, and nothing else happened.
    Memory,
    /// A device failed in this call. The record is broken until it is opened again.
    DiskFailed,
    /// A device failed in an earlier call.
    Broken,
    /// The generation is the last one, 2^64 - 1: the record can't be rewritten.
    GenerationsExhausted,
    /// The two disks are not those of a record.
    NotFormatted,
    /// The first disk has a record of version 1, which `Record::migrate` reads.
    OldVersion,
    /// The commit byte, length or entry that begins at this offset can't be read.
    Damaged(usize),
}

impl From<AllocError> for RecordFault {
    ghost from_gives = { λ _ e. e ≡ Memory };

    fn from(_: AllocError) -> Self {
        RecordFault::Memory
    }
}

impl<T: Drop> From<AllocFailed<T>> for RecordFault {
    ghost from_gives = { λ _ e. e ≡ Memory };

    fn from(_: AllocFailed<T>) -> Self {
        RecordFault::Memory
    }
}

impl From<DiskFault> for RecordFault {
    ghost from_gives = { λ d e. e ≡ fault_of d };

    fn from(fault: DiskFault) -> Self {
        match fault {
            DiskFault::Memory => RecordFault::Memory,
            DiskFault::Failed => RecordFault::DiskFailed,
        }
    }
}
