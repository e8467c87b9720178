//! The reasons that a distribution point may be for.

/// A reason for a revocation, as the bit of a ReasonFlags (RFC 5280 4.2.1.13).
#[derive(Clone, Copy, Debug, PartialEq, Eq)]
pub enum ReasonFlag {
    KeyCompromise = 1,
    CaCompromise = 2,
    AffiliationChanged = 3,
    Superseded = 4,
    CessationOfOperation = 5,
    CertificateHold = 6,
    PrivilegeWithdrawn = 7,
    AaCompromise = 8,
}

impl ReasonFlag {
    ghost use Rattle.std.specs.Prelude.{◌≡◌};
    ghost use Rattle.ts_ext.specs.NamedBits.{flag_number};

    /// The number of its bit.
    pub fn number(self) -> u8
        ensures { result ≡ flag_number self }
    {
        self as u8
    }
}
