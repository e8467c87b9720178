//! Blocks and their labels.

/// The label of a block that is read (RFC 7468 5, 6).
#[derive(Clone, Copy, Debug)]
pub enum Label {
    /// `CERTIFICATE`.
    Certificate,
    /// `X509 CRL`.
    Crl,
}

/// A block of a text.
#[derive(Drop)]
pub struct Block {
    pub label: Label,
    /// The octets that the lines of the block encode. Whether they are what the label says is not
    /// looked at.
    pub octets: Vec<u8>,
}
