//! Why a frame was not read or written.

ghost use Rattle.std.specs.Prelude.{◌≡◌};
ghost use Rattle.ts_wire.specs.declared.wire_error.FeedError.TheVariants.{Memory};
ghost use Rattle.ts_wire.specs.declared.wire_error.WriteError.TheVariants.{Memory as WriteMemory};

use crate::fault::FrameFault;
use std::alloc::AllocError;

/// Why no frame was taken.
#[derive(Clone, Copy, Debug, PartialEq, Eq)]
pub enum FeedError {
    /// Memory was refused. The frame can be taken again.
    Memory,
    /// A fault is in the frame's place.
    Frame(FrameFault),
}

/// Why a frame was not written.
#[derive(Clone, Copy, Debug, PartialEq, Eq)]
pub enum WriteError {
    /// Memory was refused.
    Memory,
    /// The frame's length would be above 8,388,608.
    Length,
}

impl From<AllocError> for FeedError {
    ghost from_gives = { λ _ e. e ≡ Memory };

    fn from(_e: AllocError) -> FeedError {
        FeedError::Memory
    }
}

impl From<AllocError> for WriteError {
    ghost from_gives = { λ _ e. e ≡ WriteMemory };

    fn from(_e: AllocError) -> WriteError {
        WriteError::Memory
    }
}
