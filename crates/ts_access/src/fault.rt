//! Why a file of keys is refused, and why a connection ends.

use std::alloc::AllocError;
use ts_guard::{GuardFault, HelloFault};

/// Why a text is no file of keys.
#[derive(Clone, Copy, Debug, PartialEq, Eq)]
pub enum KeysFault {
    /// Memory was refused.
    Memory,
    /// This line, counted from 1, names no key, is not empty and does not begin with `#`.
    Line(u32),
    /// This number is named twice.
    Twice(u32),
    /// There are more than 4,096 keys, or 4,294,967,295 octets or more.
    TooMany,
}

impl From<AllocError> for KeysFault {
    ghost use Rattle.std.specs.Prelude.{◌≡◌};
    ghost use Rattle.ts_access.specs.declared.fault.KeysFault.TheVariants.{Memory};

    ghost from_gives = { λ _ fault. fault ≡ Memory };

    fn from(_: AllocError) -> Self {
        KeysFault::Memory
    }
}

/// Why a connection with keys ends.
#[derive(Clone, Copy, Debug, PartialEq, Eq)]
pub enum EntranceFault {
    /// Memory was refused.
    Memory,
    /// What came first is no hello.
    Hello(HelloFault),
    /// No key has the number that the client has named.
    UnknownKey,
    /// What came is not the next record.
    Guard(GuardFault),
}

impl From<AllocError> for EntranceFault {
    ghost use Rattle.std.specs.Prelude.{◌≡◌};
    ghost use Rattle.ts_access.specs.declared.fault.EntranceFault.TheVariants.{Memory};

    ghost from_gives = { λ _ fault. fault ≡ Memory };

    fn from(_: AllocError) -> Self {
        EntranceFault::Memory
    }
}

impl From<GuardFault> for EntranceFault {
    ghost use Rattle.std.specs.Prelude.{◌≡◌};
    ghost use Rattle.ts_access.specs.Faults.{of_guard};

    ghost from_gives = { λ reason fault. fault ≡ of_guard reason };

    fn from(fault: GuardFault) -> Self {
        match fault {
            GuardFault::Memory => EntranceFault::Memory,
            fault => EntranceFault::Guard(fault),
        }
    }
}

impl From<HelloFault> for EntranceFault {
    ghost use Rattle.std.specs.Prelude.{◌≡◌};
    ghost use Rattle.ts_access.specs.declared.fault.EntranceFault.TheVariants.{Hello};

    ghost from_gives = { λ reason fault. fault ≡ Hello reason };

    fn from(fault: HelloFault) -> Self {
        EntranceFault::Hello(fault)
    }
}
