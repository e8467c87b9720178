//! The group that a loop carries messages in.

/// Where a peer is reached.
#[derive(Debug, Drop)]
pub struct PeerAddress {
    /// The number of its node.
    pub node: u8,
    /// A host's name or number, a colon and a port.
    pub address: String,
}

/// What a loop does for its node besides answering.
#[derive(Debug, Drop)]
pub struct Group {
    /// Whether messages are carried: those of the node to itself, and those to peers. Otherwise
    /// they wait at the node until somebody takes them.
    pub carries: bool,
    /// Where messages to other nodes are carried.
    pub peers: Vec<PeerAddress>,
    /// Whether standard error is told of peers that are reached and lost, and of commands that are
    /// chosen.
    pub tells: bool,
}
