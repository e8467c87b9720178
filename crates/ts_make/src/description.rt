//! What a certificate is to say.

ghost use Rattle.std.specs.Prelude.{◌≡◌};
ghost use Rattle.ts_make.specs.Description.{kind_octets};

use ts_der::OidRef;
use ts_time::Moment;

/// The types of attribute that a name may have here (RFC 5280 4.1.2.4, Appendix A.1).
#[derive(Clone, Copy, Debug, PartialEq, Eq)]
pub enum AttributeType {
    /// commonName, 2.5.4.3.
    CommonName,
    /// organizationName, 2.5.4.10.
    OrganizationName,
}

impl AttributeType {
    /// The content octets of the type's OBJECT IDENTIFIER.
    pub(crate) fn octets(self) -> [u8; 3]
        ensures { result ≡ kind_octets self }
    {
        match self {
            AttributeType::CommonName => [0x55, 0x04, 0x03],
            AttributeType::OrganizationName => [0x55, 0x04, 0x0a],
        }
    }
}

/// A relative distinguished name of one attribute, whose value is a UTF8String (RFC 5280 4.1.2.4).
#[derive(Clone, Copy, Debug)]
pub struct RdnText<'a> {
    pub kind: AttributeType,
    pub text: &'a str,
}

/// A name in an extension, in one of three forms (RFC 5280 4.2.1.6).
#[derive(Clone, Copy, Debug)]
pub enum NameText<'a> {
    /// dNSName, an IA5String.
    Dns(&'a str),
    /// iPAddress: the octets of an address, or of an address and a mask.
    Ip(&'a [u8]),
    /// rfc822Name, an IA5String.
    Mail(&'a str),
}

/// A part of an extension (RFC 5280 4.2). The parts of one extension gather in it, in their order;
/// the extensions that have a part are there, in the order of this list. Of `BasicConstraints`,
/// `InhibitAnyPolicy` and `Critical` each part is an extension of its own.
#[derive(Clone, Copy)]
pub enum ExtensionText<'a> {
    /// keyUsage, critical: the bit of this number is 1 (RFC 5280 4.2.1.3).
    KeyUsage(u32),
    /// subjectAltName: one more name (RFC 5280 4.2.1.6).
    SubjectAltName(NameText<'a>),
    /// basicConstraints of a CA, critical, with its pathLenConstraint where there is one (RFC 5280
    /// 4.2.1.9).
    BasicConstraints(Option<u32>),
    /// nameConstraints, critical: one more permitted subtree (RFC 5280 4.2.1.10).
    PermittedSubtree(NameText<'a>),
    /// nameConstraints, critical: one more excluded subtree (RFC 5280 4.2.1.10).
    ExcludedSubtree(NameText<'a>),
    /// cRLDistributionPoints: one more point, of this URI alone (RFC 5280 4.2.1.13).
    DistributionPoint(&'a str),
    /// certificatePolicies: one more policy, without qualifiers (RFC 5280 4.2.1.4).
    Policy(OidRef<'a>),
    /// policyMappings, critical: one more mapping (RFC 5280 4.2.1.5).
    PolicyMapping {
        /// issuerDomainPolicy.
        issuer: OidRef<'a>,
        /// subjectDomainPolicy.
        subject: OidRef<'a>,
    },
    /// policyConstraints, critical: requireExplicitPolicy (RFC 5280 4.2.1.11).
    RequireExplicitPolicy(u32),
    /// policyConstraints, critical: inhibitPolicyMapping (RFC 5280 4.2.1.11).
    InhibitPolicyMapping(u32),
    /// extKeyUsage: one more purpose (RFC 5280 4.2.1.12).
    KeyPurpose(OidRef<'a>),
    /// inhibitAnyPolicy, critical (RFC 5280 4.2.1.14).
    InhibitAnyPolicy(u32),
    /// An extension of this object identifier, critical, whose value is NULL.
    Critical(OidRef<'a>),
}

/// A certificate of version 3, in the words of its fields (RFC 5280 4.1). Both its algorithms are
/// the stand-in's, and so is that of its key.
#[derive(Clone, Copy)]
pub struct CertText<'a> {
    /// serialNumber (RFC 5280 4.1.2.2).
    pub serial: u32,
    /// issuer (RFC 5280 4.1.2.4), the first relative distinguished name first.
    pub issuer: &'a [RdnText<'a>],
    /// subject (RFC 5280 4.1.2.6).
    pub subject: &'a [RdnText<'a>],
    /// notBefore (RFC 5280 4.1.2.5).
    pub from: Moment,
    /// notAfter (RFC 5280 4.1.2.5).
    pub to: Moment,
    /// The octets of the subject's public key (RFC 5280 4.1.2.7).
    pub key: &'a [u8],
    /// The octets of the public key under which the signature is good (RFC 5280 4.1.1.3).
    pub signer: &'a [u8],
    /// extensions (RFC 5280 4.1.2.9).
    pub extensions: &'a [ExtensionText<'a>],
}
