//! Why a stream of records is refused.

use std::alloc::AllocError;

/// Why a record is not let through, or not written.
#[derive(Clone, Copy, Debug, PartialEq, Eq)]
pub enum GuardFault {
    /// Memory was refused.
    Memory,
    /// A record's length is below 34 or above 65,569: its content has not 1 to 65,536 octets.
    Length,
    /// A record's version is not 3.
    Version,
    /// A record bears another tag than the one of its key, connection, direction, number and
    /// content.
    Tag,
    /// All numbers are used.
    Number,
}

impl From<AllocError> for GuardFault {
    ghost use Rattle.std.specs.Prelude.{◌≡◌};
    ghost use Rattle.ts_guard.specs.declared.fault.GuardFault.TheVariants.{Memory};

    ghost from_gives = { λ _ fault. fault ≡ Memory };

    fn from(_: AllocError) -> Self {
        GuardFault::Memory
    }
}

/// What is wrong in the place of a challenge or a greeting.
#[derive(Clone, Copy, Debug, PartialEq, Eq)]
pub enum HelloFault {
    /// The version is not 3. A client or a server of version 2 sends no hello: its first frame is
    /// refused so.
    Version,
    /// The length is another one.
    Length,
    /// The kind is another one.
    Kind,
}
