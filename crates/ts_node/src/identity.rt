//! Which node of which group it is.

/// A node, by its number, of how many, and of which group: 0 is none.
#[derive(Clone, Copy, Debug, PartialEq, Eq)]
pub struct Identity {
    pub node: u8,
    pub nodes: u8,
    pub group: u32,
}
