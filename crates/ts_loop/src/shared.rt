//! What all connections share beside the node.

use crate::watch::Watch;
use ts_peers::Carrier;
use ts_sockets::Counts;

/// What carries the node's messages, and what is counted.
#[derive(Drop)]
pub(crate) struct Shared {
    pub carrier: Carrier,
    /// Of the connections of frames.
    pub counts: Counts,
    pub watch: Watch,
}
