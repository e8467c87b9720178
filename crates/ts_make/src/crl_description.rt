//! What a CRL is to say.

use crate::description::RdnText;
use ts_der::OidRef;
use ts_ext::ReasonCode;
use ts_time::Moment;

/// An entry of a CRL: a certificate that is revoked since the CRL was issued (RFC 5280 5.1.2.6).
#[derive(Clone, Copy, Debug)]
pub struct EntryText {
    /// userCertificate: the serial number of the certificate.
    pub serial: u32,
    /// reasonCode, which is not critical (RFC 5280 5.3.1).
    pub reason: ReasonCode,
}

/// A CRL of version 2, in the words of its fields (RFC 5280 5.1). Its algorithm is the stand-in's.
#[derive(Clone, Copy)]
pub struct CrlText<'a> {
    /// issuer (RFC 5280 5.1.2.3), the first relative distinguished name first.
    pub issuer: &'a [RdnText<'a>],
    /// thisUpdate (RFC 5280 5.1.2.4), which is also the date of each entry.
    pub this_update: Moment,
    /// nextUpdate (RFC 5280 5.1.2.5).
    pub next_update: Moment,
    /// The octets of the public key under which the signature is good (RFC 5280 5.1.1.3).
    pub signer: &'a [u8],
    /// revokedCertificates (RFC 5280 5.1.2.6), a field that is absent where there are none.
    pub entries: &'a [EntryText],
    /// cRLNumber, which is not critical (RFC 5280 5.2.3).
    pub number: Option<u32>,
    /// deltaCRLIndicator, which is critical: the base number of a delta (RFC 5280 5.2.4).
    pub base: Option<u32>,
    /// onlySomeReasons of issuingDistributionPoint, critical: the bits of these numbers are 1 (RFC
    /// 5280 5.2.5).
    pub reasons: &'a [u32],
    /// distributionPoint of issuingDistributionPoint, critical: its full name, of these URIs (RFC
    /// 5280 5.2.5).
    pub uris: &'a [&'a str],
    /// Extensions of these object identifiers, critical, whose values are NULL.
    pub critical: &'a [OidRef<'a>],
}
