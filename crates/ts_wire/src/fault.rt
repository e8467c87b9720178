//! Codes of faults in frames, and what is wrong in a frame's place.

ghost use Rattle.std.specs.Prelude.{◌≡◌};
ghost use Rattle.ts_wire.specs.Outcomes.{node_fault_code, frame_fault_code};

use ts_synod::NodeFault;

/// What is wrong in a frame's place. Of several faults the first counts.
#[derive(Clone, Copy, Debug, PartialEq, Eq)]
pub enum FrameFault {
    /// The length is below 2 or above 8,388,608.
    Length,
    /// The version is not 2.
    Version,
    /// There is no such kind.
    Kind,
    /// A field is cut, or out of its range.
    Field,
    /// Octets follow the fields.
    Trailing,
}

/// The code of a node's fault, from 1 to 6.
pub(crate) fn code_of(fault: NodeFault) -> u8
    ensures { result ≡ node_fault_code fault }
{
    match fault {
        NodeFault::Memory => 1,
        NodeFault::DiskFailed => 2,
        NodeFault::Broken => 3,
        NodeFault::RoundsExhausted => 4,
        NodeFault::PositionsExhausted => 5,
        NodeFault::GenerationsExhausted => 6,
    }
}

impl FrameFault {
    /// The code, from 1 to 5.
    pub fn code(self) -> u8
        ensures { result ≡ frame_fault_code self }
    {
        match self {
            FrameFault::Length => 1,
            FrameFault::Version => 2,
            FrameFault::Kind => 3,
            FrameFault::Field => 4,
            FrameFault::Trailing => 5,
        }
    }
}
