//! Why octets could not be read.

ghost use Rattle.std.specs.Prelude.{◌≡◌};
ghost use Rattle.ts_codec.specs.declared.fault.ReadFault.TheVariants.{Memory};

use std::alloc::{AllocError, AllocFailed};

/// Why a part could not be read from the front of octets.
#[derive(Debug, Drop)]
pub enum ReadFault {
    /// Memory was refused.
    Memory,
    /// The octets are cut, or a field is out of its range.
    Form,
}

impl From<AllocError> for ReadFault {
    ghost from_gives = { λ _ e. e ≡ Memory };

    fn from(_e: AllocError) -> ReadFault {
        ReadFault::Memory
    }
}

impl<T: Drop> From<AllocFailed<T>> for ReadFault {
    ghost from_gives = { λ _ e. e ≡ Memory };

    fn from(_e: AllocFailed<T>) -> ReadFault {
        ReadFault::Memory
    }
}
