//! Why a node answers nothing.

use std::alloc::AllocError;

/// Why a node answers nothing.
#[derive(Debug, PartialEq, Eq, Clone, Copy)]
pub enum NodeFault {
    /// An allocation was refused, and nothing else happened.
    Memory,
    /// A device failed in this call. The node is broken until it is opened again.
    DiskFailed,
    /// A device failed in an earlier call; or memory was refused to a turn when its roles were
    /// ahead of the record, in this call or in an earlier one. The node has to be opened again.
    Broken,
    /// The greatest round used or seen is the last one.
    RoundsExhausted,
    /// Every position of the log is learned.
    PositionsExhausted,
    /// The record was rewritten as often as it can be.
    GenerationsExhausted,
}

impl From<AllocError> for NodeFault {
    ghost use Rattle.std.specs.Prelude.{◌≡◌};
    ghost use Rattle.ts_synod.specs.declared.fault.NodeFault.TheVariants.{Memory};

    ghost from_gives = { λ _ e. e ≡ Memory };

    fn from(_: AllocError) -> Self {
        NodeFault::Memory
    }
}
