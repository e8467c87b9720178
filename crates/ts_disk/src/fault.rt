//! What a call of a disk answers in place of a value.

ghost use Rattle.std.specs.Prelude.{◌≡◌};
ghost use Rattle.ts_disk.specs.declared.fault.DiskFault.TheVariants.{Memory};

use std::alloc::{AllocError, AllocFailed};

/// What a call of a disk answers in place of a value.
#[derive(Clone, Copy, Debug, PartialEq, Eq)]
pub enum DiskFault {
    /// An allocation was refused before the device was asked.
    Memory,
    /// The device failed, and counted it.
    Failed,
}

impl From<AllocError> for DiskFault {
    ghost from_gives = { λ _ e. e ≡ Memory };

    fn from(_: AllocError) -> Self {
        DiskFault::Memory
    }
}

impl<T: Drop> From<AllocFailed<T>> for DiskFault {
    ghost from_gives = { λ _ e. e ≡ Memory };

    fn from(_: AllocFailed<T>) -> Self {
        DiskFault::Memory
    }
}
