//! A trust anchor.

use ts_cert::OwnedCert;
use ts_command::Purposes;

/// A trust anchor: the SHA-256 of its certificate's octets, the certificate, from which name and
/// key are taken, and the purposes for which it may be used.
#[derive(Debug, Drop)]
pub struct TrustAnchor {
    pub id: [u8; 32],
    pub certificate: OwnedCert,
    pub purposes: Purposes,
}
