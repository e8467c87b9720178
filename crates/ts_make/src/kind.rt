//! The kinds of extension.

/// A kind of extension (RFC 5280 4.2.1).
#[derive(Clone, Copy)]
pub(crate) enum Kind {
    /// keyUsage.
    KeyUsage,
    /// subjectAltName.
    SubjectAltName,
    /// basicConstraints.
    BasicConstraints,
    /// nameConstraints.
    NameConstraints,
    /// cRLDistributionPoints.
    CrlDistributionPoints,
    /// certificatePolicies.
    CertificatePolicies,
    /// policyMappings.
    PolicyMappings,
    /// policyConstraints.
    PolicyConstraints,
    /// extKeyUsage.
    ExtendedKeyUsage,
    /// inhibitAnyPolicy.
    InhibitAnyPolicy,
    /// Any other that is critical.
    Critical,
}

/// The kinds in the order in which they stand.
pub(crate) const KINDS: [Kind; 11] = [
    Kind::KeyUsage,
    Kind::SubjectAltName,
    Kind::BasicConstraints,
    Kind::NameConstraints,
    Kind::CrlDistributionPoints,
    Kind::CertificatePolicies,
    Kind::PolicyMappings,
    Kind::PolicyConstraints,
    Kind::ExtendedKeyUsage,
    Kind::InhibitAnyPolicy,
    Kind::Critical,
];
