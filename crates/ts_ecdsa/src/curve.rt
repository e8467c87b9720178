//! The curves that a caller names.

/// A curve of SP 800-186.
#[derive(Clone, Copy, Debug, PartialEq, Eq)]
pub enum Curve {
    /// P-256, secp256r1 (3.2.1.3).
    P256,
    /// P-384, secp384r1 (3.2.1.4).
    P384,
    /// P-521, secp521r1 (3.2.1.5).
    P521,
}
