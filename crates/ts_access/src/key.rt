//! A key and its role.

/// What the holder of a key is to a node.
#[derive(Clone, Copy, Debug, PartialEq, Eq)]
pub enum Role {
    /// The node of this number, 1 to 9.
    Peer(u8),
    /// Who may change the store.
    Admin,
    /// Who may ask questions.
    Reader,
}

/// A key of a file of keys. It has no `Debug`, so that no message shows a secret.
#[derive(Clone, Copy, PartialEq, Eq)]
pub struct Key {
    /// The number by which a client names it.
    pub id: u32,
    pub role: Role,
    /// The 32 octets that its holders share.
    pub secret: [u8; 32],
}
