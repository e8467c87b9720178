//! Why there is no answer.

ghost use Rattle.std.specs.Prelude.{◌≡◌};
ghost use Rattle.ts_exchange.specs.declared.fault.ExchangeFault.TheVariants.{Memory};

use std::alloc::{AllocError, AllocFailed};
use ts_synod::NodeFault;
use ts_wire::FrameFault;

/// Why there is no answer to a request.
#[derive(Clone, Copy, Debug, PartialEq, Eq)]
pub enum ExchangeFault {
    /// Memory was refused.
    Memory,
    /// What came ended before a whole frame.
    Cut,
    /// A node answered this fault.
    Node(NodeFault),
    /// This is in a frame's place, or a server answered it; `Kind` for a frame that is no answer to
    /// what was asked, `Length` for a request that is too long.
    Frame(FrameFault),
}

impl From<AllocError> for ExchangeFault {
    ghost from_gives = { λ _ e. e ≡ Memory };

    fn from(_e: AllocError) -> ExchangeFault {
        ExchangeFault::Memory
    }
}

impl<T: Drop> From<AllocFailed<T>> for ExchangeFault {
    ghost from_gives = { λ _ e. e ≡ Memory };

    fn from(_e: AllocFailed<T>) -> ExchangeFault {
        ExchangeFault::Memory
    }
}
