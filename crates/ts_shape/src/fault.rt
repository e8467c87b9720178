//! What is wrong with octets that are not a certificate, and where.

ghost use Rattle.std.specs.Prelude.{◌≡◌, Some};
ghost use Rattle.ts_shape.specs.Fault.{code_of, about};
ghost use Rattle.ts_shape.specs.Printed.{rule_name};

use std::fmt;
use ts_der::{DerFault, Fault};

/// The rule that a certificate's octets break.
#[derive(Clone, Copy, Debug, PartialEq, Eq)]
pub enum CertRule {
    /// A rule of DER.
    Der(DerFault),
    /// The signature algorithm within what is signed is not the one beside the signature (RFC 5280
    /// 4.1.1.2).
    AlgorithmMismatch,
    /// An extension that occurs twice (RFC 5280 4.2).
    DuplicateExtension,
    /// A version other than 1, 2 and 3 (RFC 5280 4.1.2.1).
    Version,
    /// Extensions below version 3, or unique identifiers in version 1 (RFC 5280 4.1.2.8, 4.1.2.9).
    ExtensionsInOldVersion,
    /// A subtree with a minimum other than 0, or with a maximum (RFC 5280 4.2.1.10).
    SubtreeBounds,
    /// A policy that occurs twice among the certificate policies (RFC 5280 4.2.1.4).
    DuplicatePolicy,
    /// An IP address of neither 4 nor 16 octets, or in a subtree of neither 8 nor 32 (RFC 5280
    /// 4.2.1.6, 4.2.1.10).
    AddressLength,
}

impl CertRule {
    /// The number by which the rule is sent and stored: that of a rule of DER is 1 to 17, that of
    /// the others 32 to 38.
    pub fn code(self) -> u8
        ensures { result ≡ code_of self }
    {
        match self {
            CertRule::Der(rule) => rule as u8,
            CertRule::AlgorithmMismatch => 32,
            CertRule::DuplicateExtension => 33,
            CertRule::Version => 34,
            CertRule::ExtensionsInOldVersion => 35,
            CertRule::SubtreeBounds => 36,
            CertRule::DuplicatePolicy => 37,
            CertRule::AddressLength => 38,
        }
    }
}

/// The name of the rule.
impl fmt::Display for CertRule {
    ghost output = { λ rule. Some (rule_name rule) };

    fn fmt<W: fmt::Write>(&self, f: &mut fmt::Formatter<W>) -> fmt::Result {
        let name = match self {
            CertRule::Der(rule) => return write!(f, "{rule}"),
            CertRule::AlgorithmMismatch => "AlgorithmMismatch",
            CertRule::DuplicateExtension => "DuplicateExtension",
            CertRule::Version => "Version",
            CertRule::ExtensionsInOldVersion => "ExtensionsInOldVersion",
            CertRule::SubtreeBounds => "SubtreeBounds",
            CertRule::DuplicatePolicy => "DuplicatePolicy",
            CertRule::AddressLength => "AddressLength",
        };
        write!(f, "{name}")
    }
}

/// The first rule that a certificate breaks, and where.
#[derive(Clone, Copy, Debug, PartialEq, Eq)]
pub struct CertFault {
    pub kind: CertRule,
    /// The offset in the certificate of what breaks the rule, in octets.
    pub at: usize,
}

/// A fault of DER is the same fault at the same place of a certificate.
impl From<Fault> for CertFault {
    ghost from_gives = { λ f c. c ≡ about f };

    fn from(fault: Fault) -> CertFault {
        CertFault {
            kind: CertRule::Der(fault.kind),
            at: fault.at,
        }
    }
}
