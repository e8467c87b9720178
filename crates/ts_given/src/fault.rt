//! Why nothing is judged.

ghost use Rattle.std.specs.Prelude.{◌≡◌, Some};
ghost use Rattle.ts_given.specs.Printed.{given_text};
ghost use Rattle.ts_given.specs.declared.fault.GivenFault.TheVariants.{Memory};

use std::alloc::{AllocError, AllocFailed};
use std::fmt;
use ts_crl::CrlFault;
use ts_shape::CertFault;

/// The first part of what is given that is refused.
#[derive(Clone, Copy, Debug, PartialEq, Eq)]
pub enum GivenFault<'a> {
    /// Memory was refused.
    Memory,
    /// There is no certificate, or there are more than 33.
    Count,
    /// None of the trust anchors is a certificate.
    NoAnchor,
    /// The certificate of this place, counted from 1, breaks this rule.
    Certificate { place: usize, fault: CertFault },
    /// The CRL of this place, counted from 1, can't be used.
    Crl { place: usize, fault: CrlFault<'a> },
}

/// What is wrong, in plain words.
impl fmt::Display for GivenFault<'_> {
    ghost output = { λ fault. Some (given_text fault) };

    fn fmt<W: fmt::Write>(&self, f: &mut fmt::Formatter<W>) -> fmt::Result {
        match self {
            GivenFault::Memory => f.write_str("out of memory"),
            GivenFault::Count => f.write_str("there are 1 to 33 certificates"),
            GivenFault::NoAnchor => f.write_str("no anchor is a certificate by RFC 5280"),
            GivenFault::Certificate { place, fault } => {
                let (rule, at) = (fault.kind, fault.at);
                write!(f, "certificate {place} can't be read: {rule} at octet {at}")
            }
            GivenFault::Crl { place, fault } => write!(f, "CRL {place} can't be used: {fault}"),
        }
    }
}

impl From<AllocError> for GivenFault<'_> {
    ghost from_gives = { λ _ e. e ≡ Memory };

    fn from(_e: AllocError) -> Self {
        GivenFault::Memory
    }
}

impl<T: Drop> From<AllocFailed<T>> for GivenFault<'_> {
    ghost from_gives = { λ _ e. e ≡ Memory };

    fn from(_e: AllocFailed<T>) -> Self {
        GivenFault::Memory
    }
}
