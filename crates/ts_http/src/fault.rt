//! Why a connection can't go on.

ghost use Rattle.std.specs.Prelude.{◌≡◌};
ghost use Rattle.ts_http.specs.declared.fault.HttpFault.TheVariants.{Memory, Write};

use http1::WriteError;
use std::alloc::{AllocError, AllocFailed};

/// Why a connection can't go on.
#[derive(Clone, Copy, Debug, PartialEq, Eq)]
pub enum HttpFault {
    /// Memory was refused.
    Memory,
    /// A response can't be written here.
    Write,
}

impl From<AllocError> for HttpFault {
    ghost from_gives = { λ _ fault. fault ≡ Memory };

    fn from(_error: AllocError) -> HttpFault {
        HttpFault::Memory
    }
}

impl<T: Drop> From<AllocFailed<T>> for HttpFault {
    ghost from_gives = { λ _ fault. fault ≡ Memory };

    fn from(_error: AllocFailed<T>) -> HttpFault {
        HttpFault::Memory
    }
}

impl From<WriteError> for HttpFault {
    ghost from_gives = { λ _ fault. fault ≡ Write };

    fn from(_error: WriteError) -> HttpFault {
        HttpFault::Write
    }
}
