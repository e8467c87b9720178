//! What a request finds when it comes.

use ts_access::Key;

/// What a request finds when it comes.
#[derive(Clone, Copy)]
pub struct Scene<'a> {
    /// The clock, in seconds from 1970-01-01T00:00:00Z.
    pub now: i64,
    /// The number of the node.
    pub node: u8,
    /// Whether commands are taken: the node has keys, and is reached over loopback.
    pub commands: bool,
    /// The keys of those who may ask.
    pub keys: &'a [Key],
}
