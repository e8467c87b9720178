//! Why the parts of a question are not at hand.

ghost use Rattle.std.specs.Prelude.{◌≡◌};
ghost use Rattle.ts_answer.specs.declared.fault.PartFault.TheVariants.{Memory};

use std::alloc::{AllocError, AllocFailed};
use ts_shape::CertFault;

/// Why the parts of a question are not at hand.
#[derive(Debug, Drop)]
pub(crate) enum PartFault {
    /// Memory was refused.
    Memory,
    /// A part can't be read: an initial subtree, which has index 0, or a certificate, counted from
    /// 1.
    Unreadable { index: u8, fault: CertFault },
}

impl From<AllocError> for PartFault {
    ghost from_gives = { λ _ e. e ≡ Memory };

    fn from(_e: AllocError) -> PartFault {
        PartFault::Memory
    }
}

impl<T: Drop> From<AllocFailed<T>> for PartFault {
    ghost from_gives = { λ _ e. e ≡ Memory };

    fn from(_e: AllocFailed<T>) -> PartFault {
        PartFault::Memory
    }
}
