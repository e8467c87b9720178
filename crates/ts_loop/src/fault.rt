//! Why a loop ended.

use std::alloc::AllocError;

/// Why a loop ended.
#[derive(Clone, Copy, Debug, PartialEq, Eq)]
pub enum LoopFault {
    /// The address can't be listened at.
    Listen,
    /// Other machines reach the address, and no keys are wanted.
    Unprotected,
    /// The address of HTTP can't be listened at.
    ListenHttp,
    /// Other machines reach the address of HTTP, and it isn't said that they may.
    UnprotectedHttp,
    /// The address of this peer can't be found.
    Peer(u8),
    /// The system gives no events.
    Poll,
    /// The system gives no time.
    Clock,
    /// Memory was refused for the slots.
    Memory,
    /// A device of the node failed. The loop ended at once: what was asked last is not answered.
    NodeFailed,
}

impl From<AllocError> for LoopFault {
    fn from(_: AllocError) -> LoopFault {
        LoopFault::Memory
    }
}
