//! A CRL that is kept.

use ts_crl::OwnedCrl;

/// A CRL of a store: the SHA-256 of its octets, and the CRL.
#[derive(Debug, Drop)]
pub struct StoredCrl {
    pub id: [u8; 32],
    pub crl: OwnedCrl,
}
