//! Which extensions are read, and where each may stand.

ghost use Rattle.std.specs.Prelude.{◌≡◌};
ghost use Rattle.ts_ext.specs.Known.{arc_of, certificate_extension, list_extension};
ghost use Rattle.ts_ext.specs.Known.{entry_extension, extension_of, known_at};
ghost use Rattle.ts_ext.specs.Ext.{layout_of};

use ts_der::OidRef;
use ts_der::tag::{BIT_STRING, ENUMERATED, GENERALIZED_TIME, INTEGER, OCTET_STRING, SEQUENCE};

/// What has extensions.
#[derive(Clone, Copy, Debug, PartialEq, Eq)]
pub enum Holder {
    /// A certificate (RFC 5280 4.2).
    Certificate,
    /// A CRL (RFC 5280 5.2).
    List,
    /// An entry of such a list (RFC 5280 5.3).
    Entry,
}

/// The extensions that are read here (RFC 5280 4.2.1, 5.2, 5.3). Each has its last arc, under
/// 2.5.29, as its number.
#[derive(Clone, Copy, Debug, PartialEq, Eq)]
pub enum Known {
    SubjectKeyIdentifier = 14,
    KeyUsage = 15,
    SubjectAltName = 17,
    IssuerAltName = 18,
    BasicConstraints = 19,
    CrlNumber = 20,
    ReasonCode = 21,
    InvalidityDate = 24,
    DeltaCrlIndicator = 27,
    IssuingDistributionPoint = 28,
    CertificateIssuer = 29,
    NameConstraints = 30,
    CrlDistributionPoints = 31,
    CertificatePolicies = 32,
    PolicyMappings = 33,
    AuthorityKeyIdentifier = 35,
    PolicyConstraints = 36,
    ExtendedKeyUsage = 37,
    FreshestCrl = 46,
    InhibitAnyPolicy = 54,
}

/// The extension of a certificate that has this arc, if one has it.
#[tactic(auto, unfolding(crate::specs::Known::certificate_extension))]
fn of_certificate(arc: u8) -> Option<Known>
    ensures { result ≡ certificate_extension arc }
{
    match arc {
        14 => Some(Known::SubjectKeyIdentifier),
        15 => Some(Known::KeyUsage),
        17 => Some(Known::SubjectAltName),
        18 => Some(Known::IssuerAltName),
        19 => Some(Known::BasicConstraints),
        30 => Some(Known::NameConstraints),
        31 => Some(Known::CrlDistributionPoints),
        32 => Some(Known::CertificatePolicies),
        33 => Some(Known::PolicyMappings),
        35 => Some(Known::AuthorityKeyIdentifier),
        36 => Some(Known::PolicyConstraints),
        37 => Some(Known::ExtendedKeyUsage),
        46 => Some(Known::FreshestCrl),
        54 => Some(Known::InhibitAnyPolicy),
        _ => None,
    }
}

/// The extension of a list that has this arc, if one has it.
#[tactic(auto, unfolding(crate::specs::Known::list_extension))]
fn of_list(arc: u8) -> Option<Known>
    ensures { result ≡ list_extension arc }
{
    match arc {
        18 => Some(Known::IssuerAltName),
        20 => Some(Known::CrlNumber),
        27 => Some(Known::DeltaCrlIndicator),
        28 => Some(Known::IssuingDistributionPoint),
        35 => Some(Known::AuthorityKeyIdentifier),
        46 => Some(Known::FreshestCrl),
        _ => None,
    }
}

/// The extension of an entry that has this arc, if one has it.
#[tactic(auto, unfolding(crate::specs::Known::entry_extension))]
fn of_entry(arc: u8) -> Option<Known>
    ensures { result ≡ entry_extension arc }
{
    match arc {
        21 => Some(Known::ReasonCode),
        24 => Some(Known::InvalidityDate),
        29 => Some(Known::CertificateIssuer),
        _ => None,
    }
}

impl Known {
    /// The extension that an object identifier names in a holder, if it is one that is read there.
    #[tactic(auto, unfolding(crate::specs::Known::known_at))]
    pub fn at(holder: Holder, oid: OidRef<'_>) -> Option<Known>
        ensures { result ≡ known_at holder oid.entry.content.now }
    {
        let [0x55, 0x1D, arc] = oid.content else {
            return None;
        };
        Known::with_arc(holder, *arc)
    }

    /// The extension that has this arc in a holder, if it is one that is read there.
    #[inline(always)]
    pub fn with_arc(holder: Holder, arc: u8) -> Option<Known>
        ensures { result ≡ extension_of holder arc }
    {
        match holder {
            Holder::Certificate => of_certificate(arc),
            Holder::List => of_list(arc),
            Holder::Entry => of_entry(arc),
        }
    }

    /// The last arc of its object identifier, which is under 2.5.29.
    pub fn arc(self) -> u8
        ensures { result ≡ arc_of self }
    {
        self as u8
    }

    /// The tag of the element that its value is.
    pub fn tag(self) -> u8
        ensures { result ≡ (layout_of self).tag }
    {
        match self {
            Known::SubjectKeyIdentifier => OCTET_STRING,
            Known::KeyUsage => BIT_STRING,
            Known::CrlNumber | Known::DeltaCrlIndicator | Known::InhibitAnyPolicy => INTEGER,
            Known::ReasonCode => ENUMERATED,
            Known::InvalidityDate => GENERALIZED_TIME,
            _ => SEQUENCE,
        }
    }
}
