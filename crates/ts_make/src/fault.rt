//! Why a certificate was not made.

ghost use Rattle.std.specs.Prelude.{◌≡◌, Some};
ghost use Rattle.ts_make.specs.declared.fault.MakeFault.TheVariants.{Memory};
ghost use Rattle.ts_make.specs.Printed.{fault_text};

use std::alloc::{AllocError, AllocFailed};
use std::error::Error;
use std::fmt;
use ts_shape::CertFault;

/// Why [`make_cert`](crate::make_cert) made no certificate.
#[derive(Clone, Copy, Debug, PartialEq, Eq)]
pub enum MakeFault {
    /// Memory ran out.
    Memory,
    /// The octets would be more than a certificate may have.
    TooLong,
    /// What was written is no certificate: the first rule that it breaks.
    Unreadable(CertFault),
}

/// The name of the reason, as `TooLong` and `Unreadable(Truncated at 4)`.
impl fmt::Display for MakeFault {
    ghost output = { λ fault. Some (fault_text fault) };

    fn fmt<W: fmt::Write>(&self, f: &mut fmt::Formatter<W>) -> fmt::Result {
        match self {
            MakeFault::Memory => write!(f, "Memory"),
            MakeFault::TooLong => write!(f, "TooLong"),
            MakeFault::Unreadable(fault) => write!(f, "Unreadable({} at {})", fault.kind, fault.at),
        }
    }
}

impl Error for MakeFault {}

impl From<AllocError> for MakeFault {
    ghost from_gives = { λ _ e. e ≡ Memory };

    fn from(_error: AllocError) -> MakeFault {
        MakeFault::Memory
    }
}

impl<T: Drop> From<AllocFailed<T>> for MakeFault {
    ghost from_gives = { λ _ e. e ≡ Memory };

    fn from(_error: AllocFailed<T>) -> MakeFault {
        MakeFault::Memory
    }
}
