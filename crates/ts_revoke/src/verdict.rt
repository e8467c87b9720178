//! What CRLs say of a certificate.

/// Whether a certificate is revoked (RFC 5280 6.3.3).
#[derive(Clone, Copy, Debug, PartialEq, Eq)]
pub enum Status {
    /// It is not revoked: the usable CRLs of the passes that were asked cover all reasons, and none
    /// of them lists it.
    Good,
    /// It is revoked, with the number of the reason (RFC 5280 5.3.1); 0 where none is given.
    Revoked(u8),
    /// The CRLs do not cover all reasons.
    Undetermined,
}
