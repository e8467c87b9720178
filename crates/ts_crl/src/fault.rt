//! Why octets are no CRL that can be used.

ghost use Rattle.std.specs.Prelude.{◌≡◌, Some};
ghost use Rattle.ts_crl.specs.Fault.{fault_in, fault_code, fault_text};

use std::error::Error;
use std::fmt;
use ts_shape::CertFault;

/// The first rule that a CRL breaks. The last five are of this profile, and have no place.
#[derive(Clone, Copy, Debug, PartialEq, Eq)]
pub enum CrlFault<'a> {
    /// A rule that has a place.
    Broken(CertFault),
    /// nextUpdate is absent (RFC 5280 5.1.2.5).
    NoNextUpdate,
    /// A critical extension is not processed, by the content octets of its object identifier (RFC
    /// 5280 5.2, 5.3).
    CriticalCrlExtension(&'a [u8]),
    /// The CRL states what has changed since another one, and has no number (RFC 5280 5.2.3,
    /// 5.2.4).
    DeltaCrl,
    /// The CRL, or an entry of it, is for certificates of other issuers (RFC 5280 5.2.5, 5.3.3).
    Indirect,
    /// The CRL's name is relative to that of its issuer (RFC 5280 5.2.5).
    RelativeName,
}

impl<'a> CrlFault<'a> {
    /// The number by which the fault is sent and stored: of one that has a place that of its rule,
    /// of the others 48 to 52.
    pub fn code(self) -> u8
        ensures { result ≡ fault_code (fault_in self.entry) }
    {
        match self {
            CrlFault::Broken(fault) => fault.kind.code(),
            CrlFault::NoNextUpdate => 48,
            CrlFault::CriticalCrlExtension(_) => 49,
            CrlFault::DeltaCrl => 50,
            CrlFault::Indirect => 51,
            CrlFault::RelativeName => 52,
        }
    }
}

/// The name of the rule, and its place where it has one, as `Truncated at 4` and `NoNextUpdate`.
impl<'a> fmt::Display for CrlFault<'a> {
    ghost output = { λ fault. Some (fault_text (fault_in fault)) };

    fn fmt<W: fmt::Write>(&self, f: &mut fmt::Formatter<W>) -> fmt::Result {
        let name = match self {
            CrlFault::Broken(fault) => return write!(f, "{} at {}", fault.kind, fault.at),
            CrlFault::NoNextUpdate => "NoNextUpdate",
            CrlFault::CriticalCrlExtension(_) => "CriticalCrlExtension",
            CrlFault::DeltaCrl => "DeltaCrl",
            CrlFault::Indirect => "Indirect",
            CrlFault::RelativeName => "RelativeName",
        };
        write!(f, "{name}")
    }
}

impl<'a> Error for CrlFault<'a> {}

impl<'a> From<CertFault> for CrlFault<'a> {
    ghost use Rattle.ts_crl.specs.declared.fault.CrlFault.TheVariants.{Broken};

    ghost from_gives = { λ f e. e ≡ Broken f };

    fn from(fault: CertFault) -> CrlFault<'a> {
        CrlFault::Broken(fault)
    }
}
