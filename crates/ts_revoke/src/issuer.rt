//! What is known of the issuer of a certificate.

use ts_ext::KeyUsage;
use ts_sig::WorkingKey;

/// The issuer of a certificate in a path: the certificate before it, or the trust anchor.
#[derive(Clone, Copy)]
pub struct Issuer<'a> {
    /// The key that signed the certificate.
    pub key: WorkingKey<'a>,
    /// The keyUsage that the issuer's certificate states (RFC 5280 4.2.1.3); of a trust anchor
    /// none.
    pub key_usage: Option<KeyUsage<'a>>,
}
