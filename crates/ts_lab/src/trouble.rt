//! Why a line about nodes has no answer of its own.

use std::alloc::{AllocError, AllocFailed};
use ts_script::LineFault;
use ts_synod::NodeFault;

/// Why a line about nodes has no answer of its own.
#[derive(Clone, Copy, Debug, PartialEq, Eq)]
pub(crate) enum Trouble {
    /// The line is wrong, which ends the run.
    Wrong(LineFault),
    /// A node answered a fault, which is printed.
    Node(NodeFault),
}

impl From<LineFault> for Trouble {
    fn from(fault: LineFault) -> Trouble {
        Trouble::Wrong(fault)
    }
}

impl From<NodeFault> for Trouble {
    fn from(fault: NodeFault) -> Trouble {
        Trouble::Node(fault)
    }
}

impl From<AllocError> for Trouble {
    fn from(_error: AllocError) -> Trouble {
        Trouble::Wrong(LineFault::Memory)
    }
}

impl<T: Drop> From<AllocFailed<T>> for Trouble {
    fn from(_error: AllocFailed<T>) -> Trouble {
        Trouble::Wrong(LineFault::Memory)
    }
}
