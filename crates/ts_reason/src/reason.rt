//! Why a chain is not good.

ghost use Rattle.std.specs.Prelude.{◌≡◌, Some, IfOk};
ghost use Rattle.ts_reason.specs.Conditions.{number_of};
ghost use Rattle.ts_reason.specs.Printed.{reason_text};
ghost use Rattle.ts_reason.specs.View.{condition_of, reason_in};

use std::alloc::{AllocError, Global};
use std::fmt;
use ts_der::{Oid, OidRef};

/// The condition that a certificate of the chain does not meet (RFC 5280 6.1.3 to 6.1.5), in the
/// order in which they are judged. An object identifier is borrowed (`Reason<OidRef>`) or has
/// memory of its own (`Reason<Oid>`).
#[derive(Clone, Copy, Debug, Drop)]
pub enum Reason<O> {
    /// The anchor is not trusted for the purpose that is asked.
    AnchorPurpose,
    /// The signature is not good under the issuer's key: 6.1.3 (a) (1).
    Signature,
    /// The moment lies before notBefore: 6.1.3 (a) (2).
    TooEarly,
    /// The moment lies after notAfter: 6.1.3 (a) (2).
    Expired,
    /// The certificate is revoked, for the reason of this code: 6.1.3 (a) (3).
    Revoked(u8),
    /// Whether the certificate is revoked can't be determined: 6.1.3 (a) (3).
    Undetermined,
    /// The issuer is not the subject of the certificate before: 6.1.3 (a) (4).
    IssuerName,
    /// A name of a form whose constraints are not processed is constrained: 4.2.1.10.
    UnsupportedConstraint,
    /// A name lies in no permitted subtree: 6.1.3 (b).
    NotPermitted,
    /// A name lies in an excluded subtree: 6.1.3 (c).
    Excluded,
    /// A policy is wanted, and none is valid: 6.1.3 (f).
    PolicyRequired,
    /// A policy mapping names anyPolicy: 6.1.4 (a).
    MapsAny,
    /// The certificate issues another and is no CA: 6.1.4 (k).
    NotCa,
    /// More certificates follow than the path length allows: 6.1.4 (l).
    PathLength,
    /// The key is not for signing certificates: 6.1.4 (n).
    KeyUsage,
    /// A critical extension that is not processed, by its object identifier: 6.1.4 (o), 6.1.5 (f).
    CriticalExtension(O),
    /// No policy of the user's is valid: 6.1.5 (g).
    FinalPolicy,
    /// The certificate is not for the purpose that is asked.
    Purpose,
}

impl<O> Reason<O> {
    /// The number of the condition, from 1 to 18.
    pub fn number(&self) -> u8
        ensures { result ≡ number_of (condition_of self.now) }
    {
        match self {
            Reason::AnchorPurpose => 1,
            Reason::Signature => 2,
            Reason::TooEarly => 3,
            Reason::Expired => 4,
            Reason::Revoked(_) => 5,
            Reason::Undetermined => 6,
            Reason::IssuerName => 7,
            Reason::UnsupportedConstraint => 8,
            Reason::NotPermitted => 9,
            Reason::Excluded => 10,
            Reason::PolicyRequired => 11,
            Reason::MapsAny => 12,
            Reason::NotCa => 13,
            Reason::PathLength => 14,
            Reason::KeyUsage => 15,
            Reason::CriticalExtension(_) => 16,
            Reason::FinalPolicy => 17,
            Reason::Purpose => 18,
        }
    }
}

impl Reason<OidRef<'_>> {
    /// The same reason, with memory of its own.
    ///
    /// # Errors
    ///
    /// Out of memory.
    pub fn to_owned(&self, alloc: Global) -> Result<Reason<Oid>, AllocError>
        ensures { IfOk result (λ copy. copy ≡ reason_in self.now) }
    {
        Ok(match self {
            Reason::AnchorPurpose => Reason::AnchorPurpose,
            Reason::Signature => Reason::Signature,
            Reason::TooEarly => Reason::TooEarly,
            Reason::Expired => Reason::Expired,
            Reason::Revoked(code) => Reason::Revoked(*code),
            Reason::Undetermined => Reason::Undetermined,
            Reason::IssuerName => Reason::IssuerName,
            Reason::UnsupportedConstraint => Reason::UnsupportedConstraint,
            Reason::NotPermitted => Reason::NotPermitted,
            Reason::Excluded => Reason::Excluded,
            Reason::PolicyRequired => Reason::PolicyRequired,
            Reason::MapsAny => Reason::MapsAny,
            Reason::NotCa => Reason::NotCa,
            Reason::PathLength => Reason::PathLength,
            Reason::KeyUsage => Reason::KeyUsage,
            Reason::CriticalExtension(oid) => {
                Reason::CriticalExtension(Oid::from_oid(alloc, *oid)?)
            }
            Reason::FinalPolicy => Reason::FinalPolicy,
            Reason::Purpose => Reason::Purpose,
        })
    }
}

impl Reason<Oid> {
    /// The same reason, borrowed.
    pub fn as_ref(&self) -> Reason<OidRef<'_>>
        ensures { reason_in result ≡ self.now }
    {
        match self {
            Reason::AnchorPurpose => Reason::AnchorPurpose,
            Reason::Signature => Reason::Signature,
            Reason::TooEarly => Reason::TooEarly,
            Reason::Expired => Reason::Expired,
            Reason::Revoked(code) => Reason::Revoked(*code),
            Reason::Undetermined => Reason::Undetermined,
            Reason::IssuerName => Reason::IssuerName,
            Reason::UnsupportedConstraint => Reason::UnsupportedConstraint,
            Reason::NotPermitted => Reason::NotPermitted,
            Reason::Excluded => Reason::Excluded,
            Reason::PolicyRequired => Reason::PolicyRequired,
            Reason::MapsAny => Reason::MapsAny,
            Reason::NotCa => Reason::NotCa,
            Reason::PathLength => Reason::PathLength,
            Reason::KeyUsage => Reason::KeyUsage,
            Reason::CriticalExtension(oid) => Reason::CriticalExtension(oid.as_ref()),
            Reason::FinalPolicy => Reason::FinalPolicy,
            Reason::Purpose => Reason::Purpose,
        }
    }
}

/// The name of the reason, as `Expired`, `Revoked 6` and `CriticalExtension 2.5.29.36`.
impl fmt::Display for Reason<OidRef<'_>> {
    ghost output = { λ reason. Some (reason_text (reason_in reason)) };

    fn fmt<W: fmt::Write>(&self, f: &mut fmt::Formatter<W>) -> fmt::Result {
        let name = match self {
            Reason::Revoked(code) => return write!(f, "Revoked {code}"),
            Reason::CriticalExtension(oid) => return write!(f, "CriticalExtension {oid}"),
            Reason::AnchorPurpose => "AnchorPurpose",
            Reason::Signature => "Signature",
            Reason::TooEarly => "TooEarly",
            Reason::Expired => "Expired",
            Reason::Undetermined => "Undetermined",
            Reason::IssuerName => "IssuerName",
            Reason::UnsupportedConstraint => "UnsupportedConstraint",
            Reason::NotPermitted => "NotPermitted",
            Reason::Excluded => "Excluded",
            Reason::PolicyRequired => "PolicyRequired",
            Reason::MapsAny => "MapsAny",
            Reason::NotCa => "NotCa",
            Reason::PathLength => "PathLength",
            Reason::KeyUsage => "KeyUsage",
            Reason::FinalPolicy => "FinalPolicy",
            Reason::Purpose => "Purpose",
        };
        write!(f, "{name}")
    }
}
