//! Why a stream was not served to its end.

ghost use Rattle.std.specs.Prelude.{◌≡◌};
ghost use Rattle.ts_serve.specs.declared.fault.ServeFault.TheVariants.{Memory as Refused};

use std::alloc::AllocError;
use ts_wire::FrameFault;

/// Why a stream was not served to its end. What was written is a front of the replies to the frames
/// taken.
#[derive(Clone, Copy, Debug, PartialEq, Eq)]
pub enum ServeFault {
    /// A read failed, or a connection could not be accepted.
    Read,
    /// A write failed, or a connection was not made.
    Write,
    /// The stream had not ended after 16,777,216 reads; or more was answered than was asked for.
    ReadLimit,
    /// The stream ended within a frame.
    Cut,
    /// The stream has a wrong frame: this is its fault, which was answered.
    Frame(FrameFault),
    /// Memory was refused.
    Memory,
}

impl From<AllocError> for ServeFault {
    ghost from_gives = { λ _ e. e ≡ Refused };

    fn from(_: AllocError) -> ServeFault {
        ServeFault::Memory
    }
}
