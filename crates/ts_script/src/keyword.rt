//! The keywords of the words that say extensions.

ghost use Rattle.std.specs.Prelude.{◌≡◌, ◌≢◌, MatchOption};
ghost use Rattle.ts_script.specs.declared.keyword.Keyword.{Keyword};
ghost use Rattle.ts_script.specs.ExtensionWords.{keyword_text, keyword_named};

/// A form of name (RFC 5280 4.2.1.6).
#[derive(Clone, Copy)]
pub enum NameKind {
    /// dNSName.
    Dns,
    /// iPAddress.
    Ip,
    /// rfc822Name.
    Mail,
}

/// What a word says, by what it begins with.
#[derive(Clone, Copy)]
pub enum Keyword {
    /// keyUsage, its bits (RFC 5280 4.2.1.3).
    KeyUsage,
    /// subjectAltName, one name (RFC 5280 4.2.1.6).
    SubjectAltName(NameKind),
    /// basicConstraints of a CA, with or without pathLenConstraint (RFC 5280 4.2.1.9).
    BasicConstraints,
    /// nameConstraints, one permitted subtree (RFC 5280 4.2.1.10).
    PermittedSubtree(NameKind),
    /// nameConstraints, one excluded subtree (RFC 5280 4.2.1.10).
    ExcludedSubtree(NameKind),
    /// cRLDistributionPoints, one point (RFC 5280 4.2.1.13).
    DistributionPoint,
    /// certificatePolicies, one policy (RFC 5280 4.2.1.4).
    Policy,
    /// policyMappings, one mapping (RFC 5280 4.2.1.5).
    PolicyMapping,
    /// policyConstraints, requireExplicitPolicy (RFC 5280 4.2.1.11).
    RequireExplicitPolicy,
    /// policyConstraints, inhibitPolicyMapping (RFC 5280 4.2.1.11).
    InhibitPolicyMapping,
    /// extKeyUsage, one purpose (RFC 5280 4.2.1.12).
    KeyPurpose,
    /// inhibitAnyPolicy (RFC 5280 4.2.1.14).
    InhibitAnyPolicy,
    /// A critical extension that nobody knows.
    Critical,
}

/// All keywords.
pub const KEYWORDS: [Keyword; 19] = [
    Keyword::KeyUsage,
    Keyword::SubjectAltName(NameKind::Dns),
    Keyword::SubjectAltName(NameKind::Ip),
    Keyword::SubjectAltName(NameKind::Mail),
    Keyword::BasicConstraints,
    Keyword::PermittedSubtree(NameKind::Dns),
    Keyword::PermittedSubtree(NameKind::Ip),
    Keyword::PermittedSubtree(NameKind::Mail),
    Keyword::ExcludedSubtree(NameKind::Dns),
    Keyword::ExcludedSubtree(NameKind::Ip),
    Keyword::ExcludedSubtree(NameKind::Mail),
    Keyword::DistributionPoint,
    Keyword::Policy,
    Keyword::PolicyMapping,
    Keyword::RequireExplicitPolicy,
    Keyword::InhibitPolicyMapping,
    Keyword::KeyPurpose,
    Keyword::InhibitAnyPolicy,
    Keyword::Critical,
];

impl Keyword {
    /// How the keyword is written.
    pub fn text(self) -> &'static [u8]
        ensures { result.now ≡ keyword_text self }
    {
        match self {
            Keyword::KeyUsage => b"usage",
            Keyword::SubjectAltName(NameKind::Dns) => b"dns",
            Keyword::SubjectAltName(NameKind::Ip) => b"ip",
            Keyword::SubjectAltName(NameKind::Mail) => b"mail",
            Keyword::BasicConstraints => b"ca",
            Keyword::PermittedSubtree(NameKind::Dns) => b"permit-dns",
            Keyword::PermittedSubtree(NameKind::Ip) => b"permit-ip",
            Keyword::PermittedSubtree(NameKind::Mail) => b"permit-mail",
            Keyword::ExcludedSubtree(NameKind::Dns) => b"exclude-dns",
            Keyword::ExcludedSubtree(NameKind::Ip) => b"exclude-ip",
            Keyword::ExcludedSubtree(NameKind::Mail) => b"exclude-mail",
            Keyword::DistributionPoint => b"crldp",
            Keyword::Policy => b"policy",
            Keyword::PolicyMapping => b"map",
            Keyword::RequireExplicitPolicy => b"require",
            Keyword::InhibitPolicyMapping => b"nomapping",
            Keyword::KeyPurpose => b"eku",
            Keyword::InhibitAnyPolicy => b"noany",
            Keyword::Critical => b"critical",
        }
    }

    /// The keyword that is written so.
    pub fn of(text: &[u8]) -> Option<Keyword>
        ensures { MatchOption result ((keyword : Keyword) → text.now ≢ keyword_text keyword)
            (λ keyword. text.now ≡ keyword_text keyword) }
    {
        keyword_named(&KEYWORDS, text)
    }
}

/// The first of some keywords that is written so.
fn keyword_named(keywords: &[Keyword], text: &[u8]) -> Option<Keyword>
    ensures { result ≡ keyword_named keywords.now text.now }
{
    for keyword in keywords {
        if keyword.text() == text {
            return Some(*keyword);
        }
    }
    None
}
