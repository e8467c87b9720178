//! How many octets there may be.

/// The greatest number of octets that a certificate may have in this profile.
pub const MAX_CERTIFICATE: usize = 65_536;

/// The greatest number of octets that a CRL may have in this profile.
pub const MAX_CRL: usize = 4_194_304;
